// The lines of classes from the list of the paths alone: a pass over it for each class, and no tables by class.
ghost use Rattle.std.specs.Prelude.{◌<◌};
ghost use Rattle.text.specs.Writer.{Room, Wrote};
ghost use Rattle.entries.specs.Entries.{class_places, entries_of};
ghost use Rattle.report_lines.specs.ListedClasses.{listed_line, listed_lines};

use entries::{CLASS_PLACES, Class};
use probability::ListedPaths;
use text::Writer;

// Writes the line of class c, if any path of a list bears it.
#[tactic(auto, using(text::proofs::Written::pieces), unfolding(crate::specs::ListedClasses::listed_line, crate::specs::Classes::bearing))]
fn listed_line(out: &mut Writer, paths: &ListedPaths, c: usize)
    requires c_lt_class_places { c < class_places }
    requires room { Room out.old (listed_line paths.now.probabilities.now paths.now.components
        (entries_of paths.now.components paths.now.paths paths.now.list.now) c) }
    ensures { Wrote out.old (listed_line paths.now.probabilities.now paths.now.components
        (entries_of paths.now.components paths.now.paths paths.now.list.now) c) out.new }
{
    let total = paths.class_total(c as Class);
    if total.paths == 0 {
        return;
    }
    out.item_line(b"K", c as u64, total.lower, total.upper);
}

// Writes the lines of the classes that some path of a list bears, ascending.
#[tactic(auto, using(crate::proofs::ListedClasses::class_tables))]
pub fn listed_class_lines(out: &mut Writer, paths: &ListedPaths)
    requires { Room out.old (listed_lines paths.now.probabilities.now paths.now.components
        (entries_of paths.now.components paths.now.paths paths.now.list.now)) }
    ensures { Wrote out.old (listed_lines paths.now.probabilities.now paths.now.components
        (entries_of paths.now.components paths.now.paths paths.now.list.now)) out.new }
{
    for c in 0..CLASS_PLACES {
        listed_line(out, paths, c);
    }
}
