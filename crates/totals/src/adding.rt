// Adding the bound of a path to totals in lent places: by class at the place of its class, or by load at that of each
// load which its class has.
ghost use Rattle.std.specs.Prelude.{ℕ, ◌≤◌, ◌<◌, ◌≡◌, Bool, true, false};
ghost use Rattle.lists.specs.Bits.{bit};
ghost use Rattle.lists.specs.Counting.{counted};
ghost use Rattle.units.specs.One.{one};
ghost use Rattle.rules.specs.Limits.{most_loads};
ghost use Rattle.totals.specs.Places.{sums_most, places_of, counts_at, Totals, Adds};

use entries::Class;
use probability::sum_at_most;
use rules::LOAD_PLACES;

// Totals that paths are added to, path by path, at the places where the class of a path counts.
pub trait Tally {
    ghost loadwise: { Bool };

    // Adds the bound of a path of this class, at most so much at each place.
    fn add_bound(most: u64, class: Class, bound: u64, totals: &mut [u64])
        requires most_le_sums_most { most ≤ sums_most }
        requires bound_le_one { bound ≤ one }
        requires totals { Totals most (places_of loadwise) totals.old }
        ensures { Adds most (places_of loadwise) (λ (p : ℕ). counted (counts_at loadwise p class) bound)
            totals.old totals.new };
}

// A place for each class.
pub struct ByClass;

impl Tally for ByClass {
    ghost loadwise = { false };

    fn add_bound(most: u64, class: Class, bound: u64, totals: &mut [u64]) {
        let total = &mut totals[class as usize];
        *total = sum_at_most(most, *total, bound);
    }
}

// A place for each load.
pub struct ByLoad;

impl Tally for ByLoad {
    ghost loadwise = { true };

    fn add_bound(most: u64, class: Class, bound: u64, totals: &mut [u64]) {
        for j in 0..LOAD_PLACES {
            totals[j] = sum_at_most(most, totals[j], counted_bit(class, j, bound));
        }
    }
}

// A bound where bit j of a class stands, else 0.
fn counted_bit(class: Class, j: usize, bound: u64) -> u64
    requires { j < most_loads }
    ensures { result ≡ counted (bit class j) bound }
{
    if (class >> j) & 1 == 1 {
        return bound;
    }
    0
}
