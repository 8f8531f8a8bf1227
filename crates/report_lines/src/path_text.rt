// The lines of paths.
ghost use Rattle.std.specs.Prelude.{◌<◌};
ghost use Rattle.text.specs.Writer.{Room, Wrote};
ghost use Rattle.entries.specs.Entries.{entry_at, entries_of};
ghost use Rattle.report_lines.specs.Paths.{path_line, path_lines};

use crate::marks::mark_bytes;
use probability::ListedPaths;
use text::Writer;
use units::{DOWN, UP};

// Writes the line of path k of a list.
#[tactic(auto, using(text::proofs::Written::pieces), unfolding(crate::specs::Paths::path_line, crate::specs::Paths::entry_line, lists::specs::Rows::joined))]
fn path_line(out: &mut Writer, paths: &ListedPaths, k: usize)
    requires k_lt_paths { k < paths.now.paths }
    requires room { Room out.old (path_line paths.now.probabilities.now paths.now.components
        (entry_at paths.now.components paths.now.list.now k)) }
    ensures { Wrote out.old (path_line paths.now.probabilities.now paths.now.components
        (entry_at paths.now.components paths.now.list.now k)) out.new }
{
    let lower = paths.bound_at(DOWN, k);
    let upper = paths.bound_at(UP, k);
    let entry = paths.entry(k);
    out.put(b"P ");
    mark_bytes(out, paths.components, entry);
    out.field(u64::from(paths.class_at(k)));
    out.bounds_end(lower, upper);
}

// Writes the lines of all paths of a list.
#[tactic(auto, using(crate::proofs::Listed::path_tables))]
pub fn path_lines(out: &mut Writer, paths: &ListedPaths)
    requires { Room out.old (path_lines paths.now.probabilities.now paths.now.components
        (entries_of paths.now.components paths.now.paths paths.now.list.now)) }
    ensures { Wrote out.old (path_lines paths.now.probabilities.now paths.now.components
        (entries_of paths.now.components paths.now.paths paths.now.list.now)) out.new }
{
    for k in 0..paths.paths {
        path_line(out, paths, k);
    }
}
