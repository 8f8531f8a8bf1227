// Places of totals before anything is added.
ghost use Rattle.std.specs.Prelude.{◌≤◌, ◌≡◌, length, replicate};
ghost use Rattle.rules.specs.Limits.{most_loads};
ghost use Rattle.entries.specs.Entries.{class_places};
ghost use Rattle.totals.specs.Places.{Cleared};

use entries::CLASS_PLACES;
use rules::LOAD_PLACES;

// Clears the places of classes in a lent slice, and no other.
pub fn clear(totals: &mut [u64])
    requires { class_places ≤ length totals.old }
    ensures { Cleared class_places totals.old totals.new }
{
    totals[..CLASS_PLACES].fill(0);
}

// A place for each load, cleared.
pub fn no_totals() -> [u64; LOAD_PLACES]
    ensures { result ≡ replicate most_loads 0 }
{
    [0; LOAD_PLACES]
}
