// Bounds for paths, in two lent slices.
ghost use Rattle.answers.specs.Answers.{by_number};
ghost use Rattle.study_model.specs.InHand.{model_in};
ghost use Rattle.evaluation.specs.Rooms.{PathBoundsPut};

use crate::rooms::pair_fault;
use entries::empty_list;
use rules::Refusal;
use study_model::ModelInHand;
use units::{DOWN, UP};

// The bounds of all paths, in the order of their list. Refused by 18.
pub fn bound_paths(model: ModelInHand, lower: &mut [u64], upper: &mut [u64]) -> Result<u32, Refusal>
    ensures { PathBoundsPut (model_in model.entry) lower.old upper.old lower.new upper.new
        (by_number result) }
{
    let mut list = empty_list();
    let number = model.list_whole(&mut list);
    let listed = model.listed(&list, number);
    pair_fault(listed.paths, lower.len(), upper.len())?;
    listed.path_bounds(DOWN, lower);
    listed.path_bounds(UP, upper);
    Ok(number)
}
