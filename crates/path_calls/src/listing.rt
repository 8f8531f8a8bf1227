// The call for the list of a study's paths.
ghost use Rattle.std.specs.Prelude.{◌≡◌};
ghost use Rattle.answers.specs.Answers.{by_number};
ghost use Rattle.meaning.specs.Sources.{meaning_of};
ghost use Rattle.path_calls.specs.Listing.{paths_listed, buffer_listed};

use answers::PathCount;
use meaning::{Source, judged_classes, no_classes};
use rules::Refusal;
use study::Study;
use study_model::{ModelInHand, hold};

// Lists the paths of a study in the order of its components, at the front of a lent buffer; answers how many there are.
// Refused by 16, then 20, 21 or 22, then 18.
pub fn list_paths(study: &Study, source: Source, buffer: &mut [u8]) -> Result<PathCount, Refusal>
    ensures answer { by_number result ≡ paths_listed (meaning_of source.entry) study.now buffer.old }
    ensures buffer { buffer.new ≡ buffer_listed (meaning_of source.entry) study.now buffer.old }
{
    let mut classes = no_classes();
    judged_classes(source, study, &mut classes)?;
    let model = ModelInHand {
        held: &hold(study),
        classes: &classes,
    };
    model.list_lent(buffer)
}
