// Which classes occur, by the list of the paths. Places for all classes are lent: there may be many more classes
// than paths.
ghost use Rattle.std.specs.Prelude.{ℕ, ◌≤◌, ◌<◌, length, get_or};
ghost use Rattle.text.specs.Writing.{Room, Wrote};
ghost use Rattle.entries.specs.Entries.{class_places, entries_of};
ghost use Rattle.totals.specs.Places.{Placed};
ghost use Rattle.report_lines.specs.Classes.{bearing, classes_with, classes_borne};
ghost use Rattle.report_lines.specs.Listing.{class_with};

use entries::{CLASS_PLACES, Class};
use probability::ListedPaths;
use totals::clear;

// Counts the paths of a list that bear each class, at the place of the class.
fn count_paths(paths: &ListedPaths, counts: &mut [u64])
    requires { class_places ≤ length counts.old }
    ensures { Placed class_places (bearing paths.now.components
        (entries_of paths.now.components paths.now.paths paths.now.list.now)) counts.old counts.new }
{
    clear(counts);
    for k in 0..paths.paths {
        let class = usize::from(paths.class_at(k));
        counts[class] += 1;
    }
}

// Writes a class at a place, if any path bears it, and answers the place behind it.
fn list_class(classes: &mut [Class], at: usize, paths: u64, c: usize) -> usize
    requires c_lt_class_places { c < class_places }
    requires room { Room classes.old at (class_with paths c) }
    ensures { Wrote classes.old at (class_with paths c) classes.new result }
{
    if paths == 0 {
        return at;
    }
    classes[at] = c as Class;
    at + 1
}

// Lists the classes that have a count above 0, ascending, and answers how many they are.
fn list_classes(counts: &[u64], classes: &mut [Class]) -> usize
    requires class_places_in_bounds { class_places ≤ length counts.now }
    requires room { Room classes.old 0 (classes_with (λ (c : ℕ). get_or counts.now c 0)) }
    ensures { Wrote classes.old 0 (classes_with (λ (c : ℕ). get_or counts.now c 0)) classes.new result }
{
    let mut listed: usize = 0;
    for c in 0..CLASS_PLACES {
        listed = list_class(classes, listed, counts[c], c);
    }
    listed
}

// Lists the classes that some path of a list bears, ascending, at the front of a slice with a place for each path, and
// answers how many they are. The first places of `counts` hold how many paths bear each class then.
pub fn occurring(paths: &ListedPaths, counts: &mut [u64], classes: &mut [Class]) -> usize
    requires class_places_in_bounds { class_places ≤ length counts.old }
    requires paths_in_bounds { paths.now.paths ≤ length classes.old }
    ensures counts { Placed class_places (bearing paths.now.components
        (entries_of paths.now.components paths.now.paths paths.now.list.now)) counts.old counts.new }
    ensures classes { Wrote classes.old 0 (classes_borne paths.now.components
        (entries_of paths.now.components paths.now.paths paths.now.list.now)) classes.new result }
{
    count_paths(paths, counts);
    list_classes(counts, classes)
}
