// The call for the bounds of a study's classes, added up in two lent slices.
ghost use Rattle.std.specs.Prelude.{◌≡◌};
ghost use Rattle.answers.specs.Answers.{by_number};
ghost use Rattle.meaning.specs.Sources.{meaning_of};
ghost use Rattle.path_calls.specs.Bounds.{classes_bounded, lower_of_classes, upper_of_classes};

use evaluation::bound_classes;
use meaning::{Source, judged_classes, no_classes};
use rules::Refusal;
use study::Study;
use study_model::{ModelInHand, hold};

// Bounds for the classes of a study, at the front of two slices, a place for each class. Refused by 16, then 20, 21 or
// 22, then 18.
pub fn class_bounds(
    study: &Study,
    source: Source,
    lower: &mut [u64],
    upper: &mut [u64],
) -> Result<(), Refusal>
    ensures answer { by_number result ≡ classes_bounded (meaning_of source.entry) study.now lower.old upper.old }
    ensures lower { lower.new ≡ lower_of_classes (meaning_of source.entry) study.now lower.old upper.old }
    ensures upper { upper.new ≡ upper_of_classes (meaning_of source.entry) study.now lower.old upper.old }
{
    let mut classes = no_classes();
    judged_classes(source, study, &mut classes)?;
    let model = ModelInHand {
        held: &hold(study),
        classes: &classes,
    };
    bound_classes(model, lower, upper)
}
