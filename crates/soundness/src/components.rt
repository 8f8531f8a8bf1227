// The component places of a study.
ghost use Rattle.std.specs.Prelude.{◌≡◌};
ghost use Rattle.rules.specs.Refusals.{breach_of};
ghost use Rattle.soundness.specs.Check.{probabilities_fault, component_fault, component_place_fault, components_fault};

use rules::{COMPONENT_PLACES, Refusal, lacked_state_fault, states_fault, sum_fault, unused_fault};
use study::Component;

// The first breach among probabilities of states 1 to 3, by the component's state count.
#[tactic(auto, using(rules::proofs::Judged::judged), unfolding(crate::specs::Check::probabilities_fault))]
pub fn probabilities_fault(states: u8, p1: u32, p2: u32, p3: u32) -> Result<(), Refusal>
    ensures { breach_of result ≡ probabilities_fault states p1 p2 p3 }
{
    lacked_state_fault(states, 1, p1)?;
    lacked_state_fault(states, 2, p2)?;
    lacked_state_fault(states, 3, p3)?;
    sum_fault(p1, p2, p3)
}

// The first breach of a component.
#[tactic(auto, using(rules::proofs::Judged::judged), unfolding(crate::specs::Check::component_fault))]
fn component_fault(c: &Component) -> Result<(), Refusal>
    ensures { breach_of result ≡ component_fault c.now }
{
    states_fault(c.states)?;
    probabilities_fault(c.states, c.p1, c.p2, c.p3)
}

// The first breach of component place i of a study with n components.
#[tactic(auto, unfolding(crate::specs::Check::component_place_fault, crate::specs::Check::unused_component_fault))]
fn component_place_fault(n: u8, i: usize, c: &Component) -> Result<(), Refusal>
    ensures { breach_of result ≡ component_place_fault n i c.now }
{
    if i < usize::from(n) {
        return component_fault(c);
    }
    unused_fault(u32::from(c.states), c.p1, c.p2, c.p3)
}

// The first breach among the component places of a study with n components.
#[tactic(auto, using(crate::proofs::Places::place_passed))]
pub fn components_fault(n: u8, component: &[Component; COMPONENT_PLACES]) -> Result<(), Refusal>
    ensures { breach_of result ≡ components_fault n component.now }
{
    for (i, c) in component.iter().enumerate() {
        component_place_fault(n, i, c)?;
    }
    Ok(())
}
