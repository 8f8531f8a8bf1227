// The call for the bounds of a load's loss.
ghost use Rattle.std.specs.Prelude.{◌≡◌};
ghost use Rattle.answers.specs.Answers.{by_number};
ghost use Rattle.rules.specs.Refusals.{breach_of};
ghost use Rattle.meaning.specs.Sources.{meaning_of};
ghost use Rattle.loss_calls.specs.Bounds.{load_bounded};
ghost use Rattle.loss_calls.specs.Losses.{LoadJudged};

use answers::Enclosure;
use evaluation::loss_bounds;
use meaning::{Source, no_classes, put_classes};
use rules::{Refusal, item_fault, unsound_fault};
use soundness::is_sound;
use study::Study;
use study_model::{ModelInHand, hold};

// The breach of a study, then of a load; without one the study is sound and has the load.
fn load_breach(study: &Study, load: usize) -> Result<(), Refusal>
    ensures { LoadJudged study.now load (breach_of result) }
{
    unsound_fault(is_sound(study))?;
    item_fault(study.loads, load)
}

// Bounds for the loss of a load. Refused by 16, 17, then 20, 21 or 22.
pub fn load_bounds(study: &Study, source: Source, load: usize) -> Result<Enclosure, Refusal>
    ensures { by_number result ≡ load_bounded (meaning_of source.entry) study.now load }
{
    load_breach(study, load)?;
    let mut classes = no_classes();
    put_classes(source, study, &mut classes)?;
    let losses = loss_bounds(ModelInHand {
        held: &hold(study),
        classes: &classes,
    });
    Ok(Enclosure {
        lower: losses.lower[load],
        upper: losses.upper[load],
    })
}
