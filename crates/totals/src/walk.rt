// The walk along the paths of a block that adds their bounds up.
ghost use Rattle.units.specs.One.{one};
ghost use Rattle.units.specs.Rounding.{down, up};
ghost use Rattle.totals.specs.Places.{sums_most, places_of, Totals, Adds};
ghost use Rattle.totals.specs.Walk.{Reached, brings, brings_all};

use crate::adding::Tally;
use event_tree::ClassBlock;
use probability::factored;
use units::{DOWN, ONE, UP};

// No limit to sums of lower bounds: one for each of 4,096 paths.
const SUMS_MOST: u64 = 4096000000000;

// Adds up the paths of a block whose first component is component i; `low` and `high` are the bounds of the path in
// front of it. Upper totals are at most one.
fn add_paths<T: Tally>(
    block: ClassBlock,
    probabilities: &[u32],
    i: usize,
    low: u64,
    high: u64,
    lower: &mut [u64],
    upper: &mut [u64],
)
    requires reached { Reached block.counts.now probabilities.now i low high }
    requires totals { Totals sums_most (places_of T.loadwise) lower.old }
    requires totals_2 { Totals one (places_of T.loadwise) upper.old }
    ensures adds { Adds sums_most (places_of T.loadwise)
        (brings T.loadwise down probabilities.now i block.entry.counts.now block.entry.classes.now low)
        lower.old lower.new }
    ensures adds_2 { Adds one (places_of T.loadwise)
        (brings T.loadwise up probabilities.now i block.entry.counts.now block.entry.classes.now high)
        upper.old upper.new }
{
    let Some(fork) = block.fork() else {
        let class = block.class();
        T::add_bound(SUMS_MOST, class, low, lower);
        T::add_bound(ONE as u64, class, high, upper);
        return;
    };
    for s in 0..fork.ways.number() {
        let own = fork.ways.mark(s);
        add_paths::<T>(
            fork.part(s),
            probabilities,
            i + 1,
            factored(DOWN, probabilities, i, own, low),
            factored(UP, probabilities, i, own, high),
            lower,
            upper,
        );
    }
}

// Adds the bounds of all paths of a block to totals by class or by load: lower ones to the first slice, upper ones to
// the second, at most one.
pub fn add_totals<T: Tally>(
    block: ClassBlock,
    probabilities: &[u32],
    lower: &mut [u64],
    upper: &mut [u64],
)
    requires reached { Reached block.counts.now probabilities.now 0 one one }
    requires totals { Totals sums_most (places_of T.loadwise) lower.old }
    requires totals_2 { Totals one (places_of T.loadwise) upper.old }
    ensures adds { Adds sums_most (places_of T.loadwise)
        (brings_all T.loadwise down probabilities.now block.entry.counts.now block.entry.classes.now)
        lower.old lower.new }
    ensures adds_2 { Adds one (places_of T.loadwise)
        (brings_all T.loadwise up probabilities.now block.entry.counts.now block.entry.classes.now)
        upper.old upper.new }
{
    let whole = ONE as u64;
    add_paths::<T>(block, probabilities, 0, whole, whole, lower, upper);
}
