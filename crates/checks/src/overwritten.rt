// Asks for the bounds of a study's classes in slices full of the largest number and in cleared ones, and shows what the
// full ones then hold.
use check_tools::places::{UNTOUCHED, show_overwritten};
use planning::Source;
use std::io;
use study::Study;

// More than the 256 that bounds of classes are written to.
const PLACES: usize = 300;

// Shows how many places of the full slices end as those of the cleared ones do, and how many keep their number. Whether
// the call is refused is seen there too.
pub fn overwrite(out: &impl Print, study: &Study) -> io::Result<()> {
    let mut lower = [UNTOUCHED; PLACES];
    let mut upper = [UNTOUCHED; PLACES];
    let mut cleared_lower = [0; PLACES];
    let mut cleared_upper = [0; PLACES];
    let _ = planning::class_bounds(study, Source::Gates, &mut lower, &mut upper);
    let _ = planning::class_bounds(study, Source::Gates, &mut cleared_lower, &mut cleared_upper);
    show_overwritten(out, &lower, &upper, &cleared_lower, &cleared_upper)
}
