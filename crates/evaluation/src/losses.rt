// Bounds for the losses of all loads.
ghost use Rattle.study_model.specs.InHand.{model_in};
ghost use Rattle.evaluation.specs.Losses.{LossesOf};

use indices::Losses;
use study_model::ModelInHand;
use totals::{ByLoad, no_totals};

// The bounds for the loss of each load.
pub fn loss_bounds(model: ModelInHand) -> Losses
    ensures { LossesOf (model_in model.entry) result.lower result.upper }
{
    let mut lower = no_totals();
    let mut upper = no_totals();
    model.add_paths::<ByLoad>(&mut lower, &mut upper);
    Losses { lower, upper }
}
