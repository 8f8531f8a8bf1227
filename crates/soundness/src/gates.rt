// The gate places of a study.
ghost use Rattle.std.specs.Prelude.{◌≡◌};
ghost use Rattle.rules.specs.Refusals.{breach_of};
ghost use Rattle.soundness.specs.Check.{input_places_fault, vote_fault, gate_fault, unused_gate_fault};
ghost use Rattle.soundness.specs.Check.{gate_place_fault, gates_fault};

use crate::inputs::{gate_inputs_fault, tests_fault};
use gate_order::judge_inputs;
use rules::{
    GATE_PLACES, MOST_GATE_INPUTS, MOST_TESTS, Refusal, input_count_fault, threshold_fault,
    unused_fault,
};
use study::Gate;

// The first breach among the places of the inputs of gate i.
#[tactic(auto, using(rules::proofs::Judged::judged), unfolding(crate::specs::Check::input_places_fault))]
fn input_places_fault(counts: &[u8], i: usize, g: &Gate) -> Result<(), Refusal>
    ensures { breach_of result ≡ input_places_fault counts.now i g.now }
{
    tests_fault(counts, g.tests, &g.component, &g.mask)?;
    gate_inputs_fault(i, g.gates, &g.input)
}

// The breach of how a gate votes: its inputs out of order, or its threshold.
#[tactic(auto, using(rules::proofs::Judged::judged), unfolding(crate::specs::Check::vote_fault))]
fn vote_fault(g: &Gate) -> Result<(), Refusal>
    ensures { breach_of result ≡ vote_fault g.now }
{
    let distinct = judge_inputs(g)?;
    threshold_fault(distinct, g.threshold)
}

// The first breach of gate place i that is in use; `counts` has the state count of each component.
#[tactic(auto, using(rules::proofs::Judged::judged), unfolding(crate::specs::Check::gate_fault))]
fn gate_fault(counts: &[u8], i: usize, g: &Gate) -> Result<(), Refusal>
    ensures { breach_of result ≡ gate_fault counts.now i g.now }
{
    input_count_fault(MOST_TESTS, g.tests)?;
    input_count_fault(MOST_GATE_INPUTS, g.gates)?;
    input_places_fault(counts, i, g)?;
    vote_fault(g)
}

// The first breach of gate place i that no record uses.
#[tactic(auto, using(rules::proofs::Judged::judged), unfolding(crate::specs::Check::unused_gate_fault))]
fn unused_gate_fault(counts: &[u8], i: usize, g: &Gate) -> Result<(), Refusal>
    ensures { breach_of result ≡ unused_gate_fault counts.now i g.now }
{
    unused_fault(
        u32::from(g.threshold),
        u32::from(g.tests),
        u32::from(g.gates),
        0,
    )?;
    input_places_fault(counts, i, g)
}

// The first breach of gate place i of a study with n gates.
#[tactic(auto, unfolding(crate::specs::Check::gate_place_fault))]
fn gate_place_fault(counts: &[u8], n: u8, i: usize, g: &Gate) -> Result<(), Refusal>
    ensures { breach_of result ≡ gate_place_fault counts.now n i g.now }
{
    if i < usize::from(n) {
        return gate_fault(counts, i, g);
    }
    unused_gate_fault(counts, i, g)
}

// The first breach among the gate places.
#[tactic(auto, using(crate::proofs::Places::place_passed))]
pub fn gates_fault(counts: &[u8], n: u8, gate: &[Gate; GATE_PLACES]) -> Result<(), Refusal>
    ensures { breach_of result ≡ gates_fault counts.now n gate.now }
{
    for (i, g) in gate.iter().enumerate() {
        gate_place_fault(counts, n, i, g)?;
    }
    Ok(())
}
