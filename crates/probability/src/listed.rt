// The paths of a list, beside the table of probabilities that bounds them.
ghost use Rattle.std.specs.Prelude.{◌≤◌, ◌<◌, ◌≡◌, length};
ghost use Rattle.lists.specs.Rows.{put};
ghost use Rattle.entries.specs.Entries.{class_borne, entry_at, entries_of};
ghost use Rattle.probability.specs.Bounded.{Boundable, Bounded};
ghost use Rattle.probability.specs.Totals.{path_bounds};

use crate::path::path_bound;
use entries::{Class, class_at, entry_at};
use units::Direction;

// So many paths of so many components, one behind the other in a list, and the probabilities of the components.
#[derive(Clone, Copy)]
pub struct ListedPaths<'a> {
    pub probabilities: &'a [u32],
    pub components: usize,
    pub list: &'a [u8],
    pub paths: usize,
    pub ghost boundable: { Boundable probabilities.now components list.now paths },
}

impl<'a> ListedPaths<'a> {
    // The entry of path k: its marks and its class.
    pub fn entry(&self, k: usize) -> &'a [u8]
        requires { k < self.now.paths }
        ensures { result.now ≡ entry_at self.now.components self.now.list.now k }
    {
        entry_at(self.list, self.components, k)
    }

    // The class that path k bears.
    pub fn class_at(&self, k: usize) -> Class
        requires { k < self.now.paths }
        ensures { result ≡ class_borne self.now.components (entry_at self.now.components self.now.list.now k) }
    {
        class_at(self.list, self.components, k)
    }

    // A bound of path k.
    pub fn bound_at(&self, rounding: Direction, k: usize) -> u64
        requires { k < self.now.paths }
        ensures { Bounded rounding.added self.now.probabilities.now self.now.components
            (entry_at self.now.components self.now.list.now k) result }
    {
        path_bound(rounding, self.probabilities, self.components, self.entry(k))
    }

    // Writes a bound for each path at the front of a slice.
    pub fn path_bounds(&self, rounding: Direction, out: &mut [u64])
        requires { self.now.paths ≤ length out.old }
        ensures { out.new ≡ put out.old 0 (path_bounds rounding.added self.now.probabilities.now self.now.components
            (entries_of self.now.components self.now.paths self.now.list.now)) }
    {
        for k in 0..self.paths {
            out[k] = self.bound_at(rounding, k);
        }
    }
}
