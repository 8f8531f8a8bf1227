// The gate inputs of a gate: a count, then so many numbers of lower gates.
ghost use Rattle.std.specs.Prelude.{◌≡◌, ◌≤◌, ◌<◌, IfOk};
ghost use Rattle.rules.specs.Limits.{most_gate_inputs};
ghost use Rattle.reading.specs.Reader.{read_of, read_into};
ghost use Rattle.gate_record.specs.Gate.{inputs_byte, input as gate_input, inputs};

use reading::Cursor;
use rules::{MOST_GATE_INPUTS, Refusal, ahead_fault, inputs_fault};
use study::Gate;

// A count of tests or of gate inputs, which is in range.
#[tactic(auto, unfolding(crate::specs::Gate::inputs_byte))]
pub fn read_input_count(bytes: &mut Cursor, most: u8) -> Result<u8, Refusal>
    ensures reads { read_of result bytes.new.rest.now ≡ inputs_byte most bytes.old.rest.now }
    ensures kept { IfOk result (λ n. n ≤ most) }
{
    let n = bytes.byte()?;
    inputs_fault(most, n)?;
    Ok(n)
}

// Input j of the gate with this number.
#[tactic(auto, unfolding(crate::specs::Gate::input))]
fn read_input(bytes: &mut Cursor, number: usize, j: usize, g: &mut Gate) -> Result<(), Refusal>
    requires { j < most_gate_inputs }
    ensures { read_into result g.new bytes.new.rest.now ≡ gate_input number j g.old bytes.old.rest.now }
{
    let input = bytes.byte()?;
    ahead_fault(number, input)?;
    g.input[j] = input;
    Ok(())
}

// The field of bit 2: how many gate inputs there are, and each of them.
#[tactic(auto, unfolding(crate::specs::Gate::inputs))]
pub fn read_inputs(bytes: &mut Cursor, number: usize, g: &mut Gate) -> Result<(), Refusal>
    ensures { read_into result g.new bytes.new.rest.now ≡ inputs number g.old bytes.old.rest.now }
{
    let n = read_input_count(bytes, MOST_GATE_INPUTS)?;
    g.gates = n;
    for j in 0..usize::from(n) {
        read_input(bytes, number, j, g)?;
    }
    Ok(())
}
