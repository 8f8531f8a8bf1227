// The losses of an opened study's loads for C, by its gates or by a drawn tree, and the loads that a class loses.
ghost use Rattle.meaning.specs.Sources.{meaning_of};
ghost use Rattle.export_answers.specs.Answers.{two};
ghost use Rattle.export_losses.specs.Losses.{BoundsLoad, CountsLost};

use entries::Class;
use export_answers::{counted, hand_pair, refused};
use meaning::Source;
use study_image::read_image;

// Bounds for the loss of a load, in two numbers. Refused by 16, 17, then 20, 21 or 22.
pub fn load_bounds(
    study: &[u8],
    source: Source,
    load: usize,
    lower: &mut u64,
    upper: &mut u64,
) -> i64
    ensures { BoundsLoad (meaning_of source.entry) study.now load
        (two lower.old upper.old) (two lower.new upper.new) result }
{
    match loss_calls::load_bounds(&read_image(study), source, load) {
        Ok(pair) => {
            hand_pair(pair, lower, upper);
            0
        }
        Err(refusal) => refused(refusal),
    }
}

// How many loads are lost in a class.
pub fn loads_lost(class: Class) -> i64
    ensures { CountsLost class result }
{
    counted(fault_tree::loads_lost(class))
}
