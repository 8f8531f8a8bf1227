// The inputs of a gate that stand at the front of their places: as many as a count says, and no more than there are
// places. Tests and gate inputs are both such rows, of numbers and masks side by side.
ghost use Rattle.std.specs.Prelude.{◌≤◌, ◌≡◌, length, take, IfOk};
ghost use Rattle.lists.specs.Rows.{put};
ghost use Rattle.ordering.specs.Distinct.{distinct};
ghost use Rattle.ordering.specs.Thinning.{most_counted, Fronted};
ghost use Rattle.ordering.specs.Sorting.{ascends};
ghost use Rattle.rules.specs.Refusals.{breach_of};
ghost use Rattle.rules.specs.Table.{unsound_fault};
ghost use Rattle.ordering.specs.Inputs.{paired, Ascending, numbers, masks, sorted};

use ordering::{count_distinct, keep_distinct, put_in_order};
use rules::Refusal;

// Puts the first so many inputs in order, in their places, and says how many of them are distinct.
pub fn order_front(count: u8, number: &mut [u8], mask: &mut [u8]) -> u8
    requires rows { length number.old ≡ length mask.old }
    requires few { length number.old ≤ most_counted }
    ensures number { number.new ≡ put number.old 0 (numbers (sorted (take count (paired number.old mask.old)))) }
    ensures mask { mask.new ≡ put mask.old 0 (masks (sorted (take count (paired number.old mask.old)))) }
    ensures many { result ≡ length (distinct (take count (paired number.old mask.old))) }
{
    let n = usize::from(count).min(number.len());
    put_in_order(&mut number[..n], &mut mask[..n])
}

// How many of the first so many inputs are distinct; refused where they are not in order.
#[tactic(auto, unfolding(rules::specs::Breach::refuse))]
pub fn count_front(count: u8, number: &[u8], mask: &[u8]) -> Result<u8, Refusal>
    requires rows { length number.now ≡ length mask.now }
    requires few { length number.now ≤ most_counted }
    ensures order { breach_of result ≡ unsound_fault (ascends (take count (paired number.now mask.now))) }
    ensures many { IfOk result (λ n. n ≡ length (distinct (take count (paired number.now mask.now)))) }
{
    let n = usize::from(count).min(number.len());
    count_distinct(&number[..n], &mask[..n]).ok_or(Refusal::Unsound)
}

// Puts the distinct ones of the first so many inputs, which are in order, at the front of the places, and says how
// many they are.
pub fn keep_front(count: u8, number: &mut [u8], mask: &mut [u8]) -> usize
    requires { length number.old ≡ length mask.old }
    ensures few { result ≤ length number.old }
    ensures kept { Ascending (take count (paired number.old mask.old)) → Fronted number.old mask.old
        (distinct (take count (paired number.old mask.old))) number.new mask.new result }
{
    let n = usize::from(count).min(number.len());
    keep_distinct(&mut number[..n], &mut mask[..n])
}
