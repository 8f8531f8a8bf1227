// The call for the figures of a study.
ghost use Rattle.std.specs.Prelude.{◌≡◌};
ghost use Rattle.answers.specs.Answers.{by_number};
ghost use Rattle.meaning.specs.Sources.{meaning_of};
ghost use Rattle.loss_calls.specs.Figures.{figures_given};

use answers::Figures;
use evaluation::figures_in;
use meaning::{Source, judged_classes, no_classes};
use rules::Refusal;
use study::Study;
use study_model::{ModelInHand, hold};

// SAIFI, SAIDI, CAIDI and MAIFI. Refused by 16, then 20, 21 or 22, then 19.
pub fn figures(study: &Study, source: Source) -> Result<Figures, Refusal>
    ensures { by_number result ≡ figures_given (meaning_of source.entry) study.now }
{
    let mut classes = no_classes();
    judged_classes(source, study, &mut classes)?;
    let model = ModelInHand {
        held: &hold(study),
        classes: &classes,
    };
    figures_in(model)
}
