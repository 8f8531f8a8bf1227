// The probabilities of the states of a study's components, as a table with four places for each.
ghost use Rattle.std.specs.Prelude.{ℕ, ◌+◌, ◌<◌, ◌≤◌, ◌≡◌, get_or};
ghost use Rattle.units.specs.One.{one};
ghost use Rattle.rules.specs.Limits.{most_components};
ghost use Rattle.study.specs.Zero.{zero_component};
ghost use Rattle.study_model.specs.Model.{state_probabilities, place_probabilities};

use model::PROBABILITY_PLACES;
use rules::{COMPONENT_PLACES, STATE_PLACES};
use study::Component;
use units::ONE;

// The probabilities of a component's states; state 0, "up", has the rest of one.
fn state_probabilities(component: &Component) -> [u32; STATE_PLACES]
    requires { component.now.p1 + component.now.p2 + component.now.p3 ≤ one }
    ensures { result ≡ state_probabilities component.now }
{
    let Component { p1, p2, p3, .. } = *component;
    [ONE - (p1 + p2 + p3), p1, p2, p3]
}

// The probabilities of all component places.
pub fn probability_table(component: &[Component; COMPONENT_PLACES]) -> [u32; PROBABILITY_PLACES]
    requires { (i : ℕ) → i < most_components
        → (get_or component.now i zero_component).p1
        + (get_or component.now i zero_component).p2
        + (get_or component.now i zero_component).p3 ≤ one }
    ensures { result ≡ place_probabilities component.now }
{
    let mut table = [0; PROBABILITY_PLACES];
    for (i, place) in component.iter().enumerate() {
        let at = i * STATE_PLACES;
        table[at..at + STATE_PLACES].copy_from_slice(&state_probabilities(place));
    }
    table
}
