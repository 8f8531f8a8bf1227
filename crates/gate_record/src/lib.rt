// Reads one gate record, and puts the inputs of the gate in order. Not for callers from outside.
#![tactic(auto)]

mod inputs;
mod tests;

ghost use Rattle.std.specs.Prelude.{◌≡◌};
ghost use Rattle.std.proofs.Common.{rules};
ghost use Rattle.rules.specs.Limits.{gate_maps};
ghost use Rattle.reading.specs.Reader.{read_into};
ghost use Rattle.study.specs.Absent.{absent_gate};
ghost use Rattle.gate_record.specs.Gate.{threshold, gate_field};
ghost use Rattle.gate_record.specs.Places.{gate_in_order};

use gate_order::put_in_order;
use inputs::read_inputs;
use reading::{Cursor, Fields, fill_record};
use rules::{GATE_MAPS, Refusal, threshold_fault};
use study::{Gate, absent_gate};
use tests::read_tests;

// The field of bit 0. It is judged after the gate's last field.
#[tactic(auto, unfolding(crate::specs::Gate::threshold))]
fn read_threshold(bytes: &mut Cursor, g: &mut Gate) -> Result<(), Refusal>
    ensures { read_into result g.new bytes.new.rest.now ≡ threshold g.old bytes.old.rest.now }
{
    g.threshold = bytes.byte()?;
    Ok(())
}

// The fields of the gate with this number: its threshold, its tests and its gate inputs. `counts` has the state count of
// each component of the study.
#[derive(Clone, Copy)]
struct GateFields<'a> {
    counts: &'a [u8],
    number: usize,
}

impl Fields for GateFields<'_> {
    type Record = Gate;

    ghost maps = { gate_maps };

    ghost last = { 2 };

    ghost absent = { λ of. absent_gate };

    ghost field = { λ of. gate_field of.counts.now of.number };

    fn maps(&self) -> u8 {
        GATE_MAPS
    }

    fn last(&self) -> u8 {
        2
    }

    fn absent(&self) -> Gate {
        absent_gate()
    }

    #[tactic(auto, unfolding(crate::specs::Gate::gate_field))]
    fn read_field(&self, bytes: &mut Cursor, k: u8, g: &mut Gate) -> Result<(), Refusal> {
        match k {
            0 => read_threshold(bytes, g),
            1 => read_tests(bytes, self.counts, g),
            _ => read_inputs(bytes, self.number, g),
        }
    }

    ghost fit = { Prim.search rules };

    ghost all = { Prim.search rules };
}

// The record of the gate with this number, in its place, with its inputs put in order; `counts` has the state count of
// each component of the study.
#[tactic(auto, unfolding(crate::specs::Gate::gate, crate::specs::Places::gate_in_order))]
pub fn read_gate(
    bytes: &mut Cursor,
    counts: &[u8],
    number: usize,
    g: &mut Gate,
) -> Result<(), Refusal>
    ensures { read_into result g.new bytes.new.rest.now ≡ gate_in_order counts.now number bytes.old.rest.now }
{
    fill_record(bytes, &GateFields { counts, number }, g)?;
    let distinct = put_in_order(g);
    threshold_fault(distinct, g.threshold)
}
