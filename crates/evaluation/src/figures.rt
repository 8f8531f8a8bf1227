// The figures of a model, from bounds for the losses of its loads.
ghost use Rattle.std.specs.Prelude.{◌≡◌, length};
ghost use Rattle.answers.specs.Answers.{by_number};
ghost use Rattle.indices.specs.Losses.{LossBounds};
ghost use Rattle.model.specs.Good.{Sizes};
ghost use Rattle.study_model.specs.InHand.{model_in};
ghost use Rattle.evaluation.specs.Figures.{figures_by, figures_in};

use crate::losses::loss_bounds;
use answers::Figures;
use indices::{Losses, customers_sum, figures_of};
use rules::{Refusal, customers_fault};
use study::Load;
use study_model::ModelInHand;

// The figures of loads. Refused by 19.
pub fn figures_from(losses: &Losses, loads: &[Load]) -> Result<Figures, Refusal>
    requires sizes { Sizes loads.now }
    requires loss_bounds { LossBounds losses.now.lower losses.now.upper (length loads.now) }
    ensures { by_number result ≡ figures_by losses.now.lower losses.now.upper loads.now }
{
    let customers = customers_sum(loads);
    customers_fault(customers)?;
    Ok(figures_of(customers, losses, loads))
}

// The figures of a model. Refused by 19.
pub fn figures_in(model: ModelInHand) -> Result<Figures, Refusal>
    ensures { by_number result ≡ figures_in (model_in model.entry) }
{
    figures_from(&loss_bounds(model), model.loads())
}
