// The paths and classes of an opened study for C, by its gates or by a drawn tree: the list of its paths, and bounds
// for each path and class.
#![tactic(auto)]

ghost use Rattle.meaning.specs.Sources.{meaning_of};
ghost use Rattle.export_paths.specs.Paths.{ListsPaths, BoundsPaths, BoundsClasses};

use export_answers::{answer_count, answer_listing, answer_outcome};
use meaning::Source;
use study_image::read_image;

// Lists the paths of a study at the front of the buffer; answers how many there are. Refused by 16, then 20, 21 or 22,
// then 18.
pub fn list_paths(study: &[u8], source: Source, buffer: &mut [u8]) -> i64
    ensures { ListsPaths (meaning_of source.entry) study.now
        buffer.old buffer.new result }
{
    answer_listing(path_calls::list_paths(&read_image(study), source, buffer))
}

// Bounds for the paths of a study, in the order of its list, at the front of two slices; answers how many there are.
// Refused by 16, then 20, 21 or 22, then 18.
pub fn path_bounds(study: &[u8], source: Source, lower: &mut [u64], upper: &mut [u64]) -> i64
    ensures { BoundsPaths (meaning_of source.entry) study.now
        lower.old upper.old lower.new upper.new result }
{
    answer_count(path_calls::path_bounds(&read_image(study), source, lower, upper))
}

// Bounds for the classes of a study, at places 0 to 255 of two slices. Refused by 16, then 20, 21 or 22, then 18.
pub fn class_bounds(study: &[u8], source: Source, lower: &mut [u64], upper: &mut [u64]) -> i64
    ensures { BoundsClasses (meaning_of source.entry) study.now
        lower.old upper.old lower.new upper.new result }
{
    answer_outcome(path_calls::class_bounds(&read_image(study), source, lower, upper))
}
