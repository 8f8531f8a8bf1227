// The call for the report of a study's bytes.
ghost use Rattle.std.specs.Prelude.{◌≡◌};
ghost use Rattle.answers.specs.Answers.{by_number};
ghost use Rattle.soundness.specs.Sound.{Sound};
ghost use Rattle.study_model.specs.InHand.{model_in};
ghost use Rattle.meaning.specs.Meaning.{by_gates, model_of};
ghost use Rattle.report_text.specs.Lent.{ModelReported, reported, buffer_reported, lower_reported, upper_reported};

use crate::measuring::text_fault;
use crate::model_text::model_text;
use crate::refusing::refused_report;
use entries::{CLASS_PLACES, empty_list};
use evaluation::pair_fault;
use fault_tree::put_classes;
use meaning::no_classes;
use rules::Refusal;
use study::Study;
use study_model::{ModelInHand, hold};
use text::Writer;

// The report of a model: nothing is written before the text and both slices are known to have room. Refused by 18.
fn model_report(
    model: ModelInHand,
    text: &mut [u8],
    lower: &mut [u64],
    upper: &mut [u64],
) -> Result<u32, Refusal>
    ensures { ModelReported (model_in model.entry)
        text.old lower.old upper.old
        text.new lower.new upper.new (by_number result) }
{
    let mut list = empty_list();
    let paths = model.list_whole(&mut list);
    text_fault(model, &list, paths, text.len())?;
    pair_fault(CLASS_PLACES, lower.len(), upper.len())?;
    let mut out = Writer::new(text);
    model_text(model, &list, paths, &mut out, lower, upper);
    Ok(out.size() as u32)
}

// The report of a sound study. Refused by 18.
fn sound_report(
    t: &Study,
    text: &mut [u8],
    lower: &mut [u64],
    upper: &mut [u64],
) -> Result<u32, Refusal>
    requires { Sound t.now }
    ensures { ModelReported (model_of by_gates t.now)
        text.old lower.old upper.old
        text.new lower.new upper.new (by_number result) }
{
    let mut classes = no_classes();
    put_classes(t, &mut classes);
    let model = ModelInHand {
        held: &hold(t),
        classes: &classes,
    };
    model_report(model, text, lower, upper)
}

// Writes the report of a study's bytes at the front of a lent buffer, and answers how many bytes it has; where the
// study opens, the bounds of its classes go to the front of two slices, a place for each class. Refused by 18, in the
// buffer or the slices.
pub fn report(
    bytes: &[u8],
    text: &mut [u8],
    lower: &mut [u64],
    upper: &mut [u64],
) -> Result<u32, Refusal>
    ensures answer { by_number result ≡ reported bytes.now text.old lower.old upper.old }
    ensures text { text.new
        ≡ buffer_reported bytes.now text.old lower.old upper.old }
    ensures lower { lower.new
        ≡ lower_reported bytes.now text.old lower.old upper.old }
    ensures upper { upper.new
        ≡ upper_reported bytes.now text.old lower.old upper.old }
{
    match opening::open(bytes) {
        Ok(study) => sound_report(&study, text, lower, upper),
        Err(refusal) => refused_report(refusal, text),
    }
}
