// The gate records of a study.
ghost use Rattle.std.specs.Prelude.{◌≡◌, ◌≤◌};
ghost use Rattle.rules.specs.Limits.{most_gates};
ghost use Rattle.reading.specs.Reader.{read_into, repeat};
ghost use Rattle.opening.specs.Opening.{placing};
ghost use Rattle.opening.specs.Places.{gate_record_in_order};

use gate_record::read_gate;
use reading::Cursor;
use rules::{GATE_PLACES, Refusal};
use study::Gate;

// So many gate records, each in its place with its inputs in order; `counts` has the state count of each component.
pub fn read_gates(
    bytes: &mut Cursor,
    counts: &[u8],
    n: u8,
    gate: &mut [Gate; GATE_PLACES],
) -> Result<(), Refusal>
    requires { n ≤ most_gates }
    ensures { read_into result gate.new bytes.new.rest.now
        ≡ repeat (placing (gate_record_in_order counts.now)) n gate.old bytes.old.rest.now }
{
    for i in 0..usize::from(n) {
        read_gate(bytes, counts, i, &mut gate[i])?;
    }
    Ok(())
}
