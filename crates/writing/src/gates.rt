// The gate records of a study.
ghost use Rattle.std.specs.Prelude.{◌≤◌, ◌≡◌};
ghost use Rattle.rules.specs.Limits.{most_tests, most_gate_inputs};
ghost use Rattle.text.specs.Writer.{Room, Wrote};
ghost use Rattle.soundness.specs.Sound.{Sound};
ghost use Rattle.study_bytes.specs.Written.{map_of, gate_fields, gate_bytes, gates_bytes};

use crate::fields::{byte_field, map_of};
use crate::inputs::{write_inputs, write_tests};
use study::{Gate, Study, absent_gate};
use text::Writer;

// The map of a gate's record.
fn gate_map(g: &Gate) -> u8
    ensures { result ≡ map_of (gate_fields g.now) }
{
    let absent = absent_gate();
    map_of(
        g.threshold != absent.threshold,
        g.tests != absent.tests,
        g.gates != absent.gates,
        false,
    )
}

// Writes the record of a gate.
#[tactic(auto, using(crate::proofs::Parts::gate))]
fn write_gate(g: &Gate, out: &mut Writer)
    requires tests_le_most_tests { g.now.tests ≤ most_tests }
    requires gates_le_most_gate_inputs { g.now.gates ≤ most_gate_inputs }
    requires room { Room out.old (gate_bytes g.now) }
    ensures { Wrote out.old (gate_bytes g.now) out.new }
{
    let absent = absent_gate();
    out.put(&[gate_map(g)]);
    byte_field(out, absent.threshold, g.threshold);
    byte_field(out, absent.tests, g.tests);
    write_tests(g, out);
    byte_field(out, absent.gates, g.gates);
    write_inputs(g, out);
}

// Writes the records of a sound study's gates.
pub fn write_gates(t: &Study, out: &mut Writer)
    requires sound { Sound t.now }
    requires room { Room out.old (gates_bytes t.now) }
    ensures { Wrote out.old (gates_bytes t.now) out.new }
{
    for g in &t.gate[..usize::from(t.gates)] {
        write_gate(g, out);
    }
}
