// A bound of one path, lower or upper by what its divisions add.
ghost use Rattle.std.specs.Prelude.{◌≤◌, ◌<◌, ◌≡◌, length};
ghost use Rattle.units.specs.One.{one};
ghost use Rattle.rules.specs.Limits.{most_components};
ghost use Rattle.probability.specs.Bounds.{factored as bounds_factored};
ghost use Rattle.probability.specs.Bounded.{Bounded};
ghost use Rattle.probability.specs.Probabilities.{AtMostOne};

use crate::probabilities::probability_at;
use entries::BLANK;
use units::{Direction, ONE, scale};

// A bound with the factor of component i, which has this mark; a blank one has none.
#[tactic(auto, unfolding(crate::specs::Bounds::factored))]
pub fn factored(rounding: Direction, probabilities: &[u32], i: usize, mark: u8, bound: u64) -> u64
    requires at_most_one { AtMostOne probabilities.now }
    requires i_lt_most_components { i < most_components }
    requires bound_le_one { bound ≤ one }
    ensures value { result ≡ bounds_factored rounding.added probabilities.now i mark bound }
    ensures upper_bound { result ≤ one }
{
    if mark == BLANK {
        return bound;
    }
    let probability = probability_at(probabilities, i, mark);
    scale(rounding, bound, u64::from(probability))
}

// A bound of the path of an entry of n components: a path starts at one, and has the factors of its components in order.
pub fn path_bound(rounding: Direction, probabilities: &[u32], n: usize, entry: &[u8]) -> u64
    requires at_most_one { AtMostOne probabilities.now }
    requires n_le_most_components { n ≤ most_components }
    requires n_in_bounds { n ≤ length entry.now }
    ensures { Bounded rounding.added probabilities.now n entry.now result }
{
    let mut bound = u64::from(ONE);
    for (i, mark) in entry[..n].iter().enumerate() {
        bound = factored(rounding, probabilities, i, *mark, bound);
    }
    bound
}
