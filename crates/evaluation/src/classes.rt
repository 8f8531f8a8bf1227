// Bounds for classes, added up in two lent slices.
ghost use Rattle.std.specs.Prelude.{◌≤◌, ◌≡◌, length};
ghost use Rattle.lists.specs.Rows.{put};
ghost use Rattle.answers.specs.Answers.{by_number};
ghost use Rattle.entries.specs.Entries.{class_places};
ghost use Rattle.study_model.specs.InHand.{model_in};
ghost use Rattle.evaluation.specs.Bounds.{class_lowers, class_uppers};
ghost use Rattle.evaluation.specs.Rooms.{ClassBoundsPut};

use crate::rooms::pair_fault;
use entries::CLASS_PLACES;
use rules::Refusal;
use study_model::ModelInHand;
use totals::{ByClass, clear};

// Writes the bounds of all classes into slices that have the room: the totals are added up in the slices themselves,
// whatever stood there.
pub fn write_classes(model: ModelInHand, lower: &mut [u64], upper: &mut [u64])
    requires class_places_in_bounds { class_places ≤ length lower.old }
    requires class_places_in_bounds_2 { class_places ≤ length upper.old }
    ensures lower { lower.new ≡ put lower.old 0 (class_lowers (model_in model.entry)) }
    ensures upper { upper.new ≡ put upper.old 0 (class_uppers (model_in model.entry)) }
{
    clear(lower);
    clear(upper);
    model.add_paths::<ByClass>(lower, upper);
}

// The bounds of all classes. Refused by 18.
pub fn bound_classes(
    model: ModelInHand,
    lower: &mut [u64],
    upper: &mut [u64],
) -> Result<(), Refusal>
    ensures { ClassBoundsPut (model_in model.entry) lower.old upper.old lower.new upper.new
        (by_number result) }
{
    pair_fault(CLASS_PLACES, lower.len(), upper.len())?;
    write_classes(model, lower, upper);
    Ok(())
}
