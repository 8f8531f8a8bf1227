// Whether the text of a model has room in a lent buffer, before anything that was lent is written.
ghost use Rattle.std.specs.Prelude.{◌≤◌, ◌≡◌, length};
ghost use Rattle.text.specs.Writer.{Room, Wrote};
ghost use Rattle.rules.specs.Refusals.{breach_of};
ghost use Rattle.rules.specs.Table.{room_fault};
ghost use Rattle.model.specs.Listed.{Listed};
ghost use Rattle.study_model.specs.InHand.{model_in};
ghost use Rattle.report_text.specs.Report.{report_bytes, model_text};

use crate::buffer::{REPORT_BYTES, empty_report};
use crate::model_text::{losses_text, paths_text};
use report_lines::listed_class_lines;
use rules::{Refusal, room_fault};
use study_model::ModelInHand;
use text::Writer;

// Writes the text from the list of the paths alone: the totals of each class are added up by themselves, which takes
// longer than adding up those of all.
#[tactic(auto, using(text::proofs::Written::pieces), unfolding(crate::specs::Report::model_text, crate::specs::Report::classes_text, lists::specs::Rows::joined))]
fn listed_text(model: ModelInHand, list: &[u8], paths: u32, out: &mut Writer)
    requires listed { Listed (model_in model) paths list.now }
    requires room { Room out.old (model_text (model_in model)) }
    ensures { Wrote out.old (model_text (model_in model.entry)) out.new }
{
    paths_text(model, list, paths, out);
    listed_class_lines(out, &model.listed(list, paths));
    losses_text(model, out);
}

// The bytes of the text.
fn text_size(model: ModelInHand, list: &[u8], paths: u32) -> usize
    requires { Listed (model_in model) paths list.now }
    ensures { result ≡ length (model_text (model_in model.entry)) }
{
    let mut page = empty_report();
    let mut out = Writer::new(&mut page);
    listed_text(model, list, paths, &mut out);
    out.size()
}

// Refused by 18 in a buffer with so much room: the text is measured only where it might not fit.
pub fn text_fault(model: ModelInHand, list: &[u8], paths: u32, room: usize) -> Result<(), Refusal>
    requires { Listed (model_in model) paths list.now }
    ensures breach { breach_of result ≡ room_fault (length (model_text (model_in model.entry))) room }
    ensures short { length (model_text (model_in model.entry)) ≤ report_bytes }
{
    if room < REPORT_BYTES {
        return room_fault(text_size(model, list, paths), room);
    }
    Ok(())
}
