// The text of a model, and the bounds of its classes.
ghost use Rattle.std.specs.Prelude.{◌≤◌, ◌≡◌, length};
ghost use Rattle.lists.specs.Rows.{put};
ghost use Rattle.text.specs.Writer.{Room, Wrote};
ghost use Rattle.entries.specs.Entries.{class_places};
ghost use Rattle.model.specs.Listed.{Listed};
ghost use Rattle.study_model.specs.InHand.{model_in};
ghost use Rattle.evaluation.specs.Bounds.{class_lowers, class_uppers};
ghost use Rattle.report_text.specs.Report.{paths_text, classes_text, losses_text, model_text};

use evaluation::{figures_from, loss_bounds, write_classes};
use meaning::no_classes;
use report_lines::{class_lines, figure_lines, load_lines, occurring, path_lines};
use study_model::ModelInHand;
use text::Writer;

// Writes the number of the paths and their lines.
#[tactic(auto, using(text::proofs::Written::pieces), unfolding(crate::specs::Report::paths_text, lists::specs::Rows::joined))]
pub fn paths_text(model: ModelInHand, list: &[u8], paths: u32, out: &mut Writer)
    requires listed { Listed (model_in model) paths list.now }
    requires room { Room out.old (paths_text (model_in model)) }
    ensures { Wrote out.old (paths_text (model_in model.entry)) out.new }
{
    out.number_line(b"PATHS", u64::from(paths));
    path_lines(out, &model.listed(list, paths));
}

// Writes the lines of the classes, whose bounds are added up in the lent slices. Which of them occur is told by the
// list of the paths: they are counted where the lower bounds come to stand.
#[tactic(auto, unfolding(crate::specs::Report::classes_text))]
fn classes_text(
    model: ModelInHand,
    list: &[u8],
    paths: u32,
    out: &mut Writer,
    lower: &mut [u64],
    upper: &mut [u64],
)
    requires listed { Listed (model_in model) paths list.now }
    requires room { Room out.old (classes_text (model_in model)) }
    requires class_places_in_bounds { class_places ≤ length lower.old }
    requires class_places_in_bounds_2 { class_places ≤ length upper.old }
    ensures text { Wrote out.old (classes_text (model_in model.entry)) out.new }
    ensures lower { lower.new ≡ put lower.old 0 (class_lowers (model_in model.entry)) }
    ensures upper { upper.new ≡ put upper.old 0 (class_uppers (model_in model.entry)) }
{
    let mut borne = no_classes();
    let number = occurring(&model.listed(list, paths), lower, &mut borne);
    write_classes(model, lower, upper);
    class_lines(out, &borne[..number], lower, upper);
}

// Writes the lines of the loads and of the figures.
#[tactic(auto, using(text::proofs::Written::pieces), unfolding(crate::specs::Report::losses_text, lists::specs::Rows::joined))]
pub fn losses_text(model: ModelInHand, out: &mut Writer)
    requires { Room out.old (losses_text (model_in model)) }
    ensures { Wrote out.old (losses_text (model_in model.entry)) out.new }
{
    let losses = loss_bounds(model);
    load_lines(out, &losses.lower, &losses.upper, model.held.loads);
    figure_lines(out, figures_from(&losses, model.loads()));
}

// Writes the text, and the bounds of all classes into slices that have the room.
#[tactic(auto, using(text::proofs::Written::pieces), unfolding(crate::specs::Report::model_text, lists::specs::Rows::joined))]
pub fn model_text(
    model: ModelInHand,
    list: &[u8],
    paths: u32,
    out: &mut Writer,
    lower: &mut [u64],
    upper: &mut [u64],
)
    requires listed { Listed (model_in model) paths list.now }
    requires room { Room out.old (model_text (model_in model)) }
    requires class_places_in_bounds { class_places ≤ length lower.old }
    requires class_places_in_bounds_2 { class_places ≤ length upper.old }
    ensures text { Wrote out.old (model_text (model_in model.entry)) out.new }
    ensures lower { lower.new ≡ put lower.old 0 (class_lowers (model_in model.entry)) }
    ensures upper { upper.new ≡ put upper.old 0 (class_uppers (model_in model.entry)) }
{
    paths_text(model, list, paths, out);
    classes_text(model, list, paths, out, lower, upper);
    losses_text(model, out);
}
