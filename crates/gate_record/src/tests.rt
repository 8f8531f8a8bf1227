// The tests of a gate: a count, then so many pairs of a component and a mask of its states.
ghost use Rattle.std.specs.Prelude.{◌≡◌, ◌<◌};
ghost use Rattle.rules.specs.Limits.{most_tests};
ghost use Rattle.reading.specs.Reader.{read_into};
ghost use Rattle.gate_record.specs.Gate.{test, tests};

use crate::inputs::read_input_count;
use reading::Cursor;
use rules::{MOST_TESTS, Refusal, mask_fault, no_component_fault};
use study::{Gate, states_of};

// Test j: the component, then the mask, each judged as soon as it is read.
fn read_test(bytes: &mut Cursor, counts: &[u8], j: usize, g: &mut Gate) -> Result<(), Refusal>
    requires { j < most_tests }
    ensures { read_into result g.new bytes.new.rest.now ≡ test counts.now j g.old bytes.old.rest.now }
{
    let component = bytes.byte()?;
    no_component_fault(counts.len(), component)?;
    let mask = bytes.byte()?;
    mask_fault(states_of(counts, component), mask)?;
    g.component[j] = component;
    g.mask[j] = mask;
    Ok(())
}

// The field of bit 1: how many tests there are, and each of them.
#[tactic(auto, unfolding(crate::specs::Gate::tests))]
pub fn read_tests(bytes: &mut Cursor, counts: &[u8], g: &mut Gate) -> Result<(), Refusal>
    ensures { read_into result g.new bytes.new.rest.now ≡ tests counts.now g.old bytes.old.rest.now }
{
    let n = read_input_count(bytes, MOST_TESTS)?;
    g.tests = n;
    for j in 0..usize::from(n) {
        read_test(bytes, counts, j, g)?;
    }
    Ok(())
}
