// The soundness check of a study: whether it keeps every rule of the format and holds 0 in every place that no record
// uses. Not for callers from outside: those call `planning`.
#![tactic(auto)]

mod components;
mod gates;
mod inputs;
mod loads;

ghost use Rattle.std.specs.Prelude.{◌≡◌};
ghost use Rattle.rules.specs.Breach.{first};
ghost use Rattle.rules.specs.Refusals.{breach_of};
ghost use Rattle.soundness.specs.Check.{front_fault, rest_fault, sound};

use components::components_fault;
pub use components::probabilities_fault;
use gates::gates_fault;
use loads::loads_fault;
use rules::{MOST_COMPONENTS, MOST_GATES, MOST_LOADS, Refusal, count_fault, width_fault};
use study::{Study, joint_states, state_counts};

// The first breach among the counts and the components.
#[tactic(auto, using(rules::proofs::Judged::judged), unfolding(crate::specs::Check::front_fault))]
fn front_fault(t: &Study) -> Result<(), Refusal>
    ensures { breach_of result ≡ front_fault t.now }
{
    count_fault(MOST_COMPONENTS, t.components)?;
    count_fault(MOST_GATES, t.gates)?;
    count_fault(MOST_LOADS, t.loads)?;
    components_fault(t.components, &t.component)
}

// The first breach among the joint states, the gates and the loads. The joint states are counted once the components
// keep their rules, so that their number fits.
#[tactic(auto, using(rules::proofs::Judged::judged), unfolding(crate::specs::Check::rest_fault))]
fn rest_fault(t: &Study) -> Result<(), Refusal>
    requires { front_fault t.now ≡ 0 }
    ensures { breach_of result ≡ rest_fault t.now }
{
    let all = state_counts(&t.component);
    let counts = &all[..usize::from(t.components)];
    width_fault(joint_states(counts))?;
    gates_fault(counts, t.gates, &t.gate)?;
    loads_fault(t.gates, t.loads, &t.load)
}

// The first breach of a study.
#[tactic(auto, using(rules::proofs::Judged::judged))]
fn judge(t: &Study) -> Result<(), Refusal>
    ensures { breach_of result ≡ first (front_fault t.now) (rest_fault t.now) }
{
    front_fault(t)?;
    rest_fault(t)
}

// Whether the study is sound.
#[tactic(auto, unfolding(crate::specs::Check::sound))]
pub fn is_sound(t: &Study) -> bool
    ensures { result ≡ sound t.now }
{
    judge(t).is_ok()
}
