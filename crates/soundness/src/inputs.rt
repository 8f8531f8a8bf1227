// The test places and gate input places of one gate.
ghost use Rattle.std.specs.Prelude.{ℕ, ◌≡◌, get_or};
ghost use Rattle.rules.specs.Breach.{first_of};
ghost use Rattle.rules.specs.Refusals.{breach_of};
ghost use Rattle.rules.specs.Table.{unused_fault};
ghost use Rattle.soundness.specs.Check.{test_place_fault, tests_fault, input_place_fault, gate_inputs_fault};

use rules::{
    INPUT_PLACES, Refusal, TEST_PLACES, ahead_fault, mask_fault, no_component_fault, unsound_fault,
    unused_fault,
};
use study::states_of;

// The first breach among the places of a row that no record uses. They are compared at once: in most studies most rows
// are such.
fn unused_row_fault<const N: usize>(row: &[u8; N]) -> Result<(), Refusal>
    ensures { breach_of result ≡ first_of (λ (j : ℕ). unused_fault (get_or row.now j 0) 0 0 0) N 0 }
{
    unsound_fault(*row == [0; N])
}

// The breach of test place j of a gate with so many tests; `counts` has the state count of each component.
#[tactic(auto, using(rules::proofs::Judged::judged), unfolding(crate::specs::Check::test_place_fault))]
fn test_place_fault(
    counts: &[u8],
    tests: u8,
    j: usize,
    component: u8,
    mask: u8,
) -> Result<(), Refusal>
    ensures { breach_of result ≡ test_place_fault counts.now tests j component mask }
{
    if usize::from(tests) <= j {
        return unused_fault(u32::from(component), u32::from(mask), 0, 0);
    }
    no_component_fault(counts.len(), component)?;
    mask_fault(states_of(counts, component), mask)
}

// The first breach among the test places of a gate with so many tests; `counts` has the state count of each component.
#[tactic(auto, using(crate::proofs::Places::place_passed))]
pub fn tests_fault(
    counts: &[u8],
    tests: u8,
    component: &[u8; TEST_PLACES],
    mask: &[u8; TEST_PLACES],
) -> Result<(), Refusal>
    ensures { breach_of result ≡ tests_fault counts.now tests component.now mask.now }
{
    if tests == 0 {
        unused_row_fault(component)?;
        return unused_row_fault(mask);
    }
    for j in 0..TEST_PLACES {
        test_place_fault(counts, tests, j, component[j], mask[j])?;
    }
    Ok(())
}

// The breach of gate input place j of gate i with so many gate inputs.
#[tactic(auto, unfolding(crate::specs::Check::input_place_fault))]
fn input_place_fault(i: usize, gates: u8, j: usize, input: u8) -> Result<(), Refusal>
    ensures { breach_of result ≡ input_place_fault i gates j input }
{
    if j < usize::from(gates) {
        return ahead_fault(i, input);
    }
    unused_fault(u32::from(input), 0, 0, 0)
}

// The first breach among the gate input places of gate i with so many gate inputs.
#[tactic(auto, using(crate::proofs::Places::place_passed))]
pub fn gate_inputs_fault(i: usize, gates: u8, input: &[u8; INPUT_PLACES]) -> Result<(), Refusal>
    ensures { breach_of result ≡ gate_inputs_fault i gates input.now }
{
    if gates == 0 {
        return unused_row_fault(input);
    }
    for (j, number) in input.iter().enumerate() {
        input_place_fault(i, gates, j, *number)?;
    }
    Ok(())
}
