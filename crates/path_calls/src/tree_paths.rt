// The call for the bounds of a study's paths, into two lent slices.
ghost use Rattle.std.specs.Prelude.{◌≡◌};
ghost use Rattle.answers.specs.Answers.{by_number};
ghost use Rattle.meaning.specs.Sources.{meaning_of};
ghost use Rattle.path_calls.specs.Bounds.{paths_bounded, lower_of_paths, upper_of_paths};

use evaluation::bound_paths;
use meaning::{Source, judged_classes, no_classes};
use rules::Refusal;
use study::Study;
use study_model::{ModelInHand, hold};

// Bounds for the paths of a study, in the order of its list, at the front of two slices; answers how many there are.
// Refused by 16, then 20, 21 or 22, then 18.
pub fn path_bounds(
    study: &Study,
    source: Source,
    lower: &mut [u64],
    upper: &mut [u64],
) -> Result<u32, Refusal>
    ensures answer { by_number result ≡ paths_bounded (meaning_of source.entry) study.now lower.old upper.old }
    ensures lower { lower.new ≡ lower_of_paths (meaning_of source.entry) study.now lower.old upper.old }
    ensures upper { upper.new ≡ upper_of_paths (meaning_of source.entry) study.now lower.old upper.old }
{
    let mut classes = no_classes();
    judged_classes(source, study, &mut classes)?;
    let model = ModelInHand {
        held: &hold(study),
        classes: &classes,
    };
    bound_paths(model, lower, upper)
}
