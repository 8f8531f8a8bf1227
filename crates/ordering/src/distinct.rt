// The distinct inputs of a row in order, where repeats stand side by side: of those the last counts.
ghost use Rattle.std.specs.Prelude.{suc, ◌<◌, ◌≤◌, ◌≡◌, length, get_or, drop};
ghost use Rattle.ordering.specs.Distinct.{distinct};
ghost use Rattle.ordering.specs.Thinning.{stands_next, most_counted, counted, Fronted};
ghost use Rattle.ordering.specs.Inputs.{no_input, paired, Ascending};

use crate::rank;

// Whether the input at a place is the same as the one behind it.
fn stands_next(number: &[u8], mask: &[u8], at: usize) -> bool
    requires rows { length number.now ≡ length mask.now }
    requires inside { at < length number.now }
    ensures { result
        ≡ stands_next (get_or (paired number.now mask.now) at no_input) (drop (suc at) (paired number.now mask.now)) }
{
    at + 1 < number.len() && (number[at], mask[at]) == (number[at + 1], mask[at + 1])
}

// Goes along a row once, and counts its distinct inputs: no input may rank below the one before it, and where it ranks
// above, another one begins.
pub fn count_distinct(number: &[u8], mask: &[u8]) -> Option<u8>
    requires rows { length number.now ≡ length mask.now }
    requires few { length number.now ≤ most_counted }
    ensures { result ≡ counted (paired number.now mask.now) }
{
    if number.is_empty() {
        return Some(0);
    }
    let mut many: u8 = 1;
    let mut before = rank(number[0], mask[0]);
    for at in 1..number.len() {
        let here = rank(number[at], mask[at]);
        if here < before {
            return None;
        }
        many += u8::from(before < here);
        before = here;
    }
    Some(many)
}

// Puts the distinct inputs of a row at its front, and says how many they are. What stands behind them is as it was.
pub fn keep_distinct(number: &mut [u8], mask: &mut [u8]) -> usize
    requires { length number.old ≡ length mask.old }
    ensures few { result ≤ length number.old }
    ensures kept { Ascending (paired number.old mask.old) → Fronted number.old mask.old
        (distinct (paired number.old mask.old)) number.new mask.new result }
{
    let mut kept = 0;
    for at in 0..number.len() {
        if !stands_next(number, mask, at) {
            number[kept] = number[at];
            mask[kept] = mask[at];
            kept += 1;
        }
    }
    kept
}
