// Reads one load record. Not for callers from outside.
#![tactic(auto)]

ghost use Rattle.std.specs.Prelude.{◌≡◌};
ghost use Rattle.std.proofs.Common.{rules};
ghost use Rattle.rules.specs.Limits.{load_maps};
ghost use Rattle.reading.specs.Reader.{read_of, read_into};
ghost use Rattle.study.specs.Absent.{absent_load};
ghost use Rattle.load_record.specs.Load.{loss_gate, size, customers, minutes, load_field, load};

use reading::{Cursor, Fields, read_record};
use rules::{LOAD_MAPS, MOST_CUSTOMERS, MOST_MINUTES, Refusal, no_gate_fault, size_fault};
use study::{Load, absent_load};

// The field of bit 0.
#[tactic(auto, unfolding(crate::specs::Load::loss_gate))]
fn read_loss_gate(bytes: &mut Cursor, gates: u8, l: &mut Load) -> Result<(), Refusal>
    ensures { read_into result l.new bytes.new.rest.now ≡ loss_gate gates l.old bytes.old.rest.now }
{
    let gate = bytes.byte()?;
    no_gate_fault(gates, gate)?;
    l.gate = gate;
    Ok(())
}

// A number of four bytes that is at most `most`.
#[tactic(auto, unfolding(crate::specs::Load::size))]
fn read_size(bytes: &mut Cursor, most: u32) -> Result<u32, Refusal>
    ensures { read_of result bytes.new.rest.now ≡ size most bytes.old.rest.now }
{
    let n = bytes.word()?;
    size_fault(most, n)?;
    Ok(n)
}

// The field of bit 1.
#[tactic(auto, unfolding(crate::specs::Load::customers))]
fn read_customers(bytes: &mut Cursor, l: &mut Load) -> Result<(), Refusal>
    ensures { read_into result l.new bytes.new.rest.now ≡ customers l.old bytes.old.rest.now }
{
    l.customers = read_size(bytes, MOST_CUSTOMERS)?;
    Ok(())
}

// The field of bit 2.
#[tactic(auto, unfolding(crate::specs::Load::minutes))]
fn read_minutes(bytes: &mut Cursor, l: &mut Load) -> Result<(), Refusal>
    ensures { read_into result l.new bytes.new.rest.now ≡ minutes l.old bytes.old.rest.now }
{
    l.minutes = read_size(bytes, MOST_MINUTES)?;
    Ok(())
}

// The fields of a load of a study with so many gates: its loss gate, its customers and its minutes.
#[derive(Clone, Copy)]
struct LoadFields {
    gates: u8,
}

impl Fields for LoadFields {
    type Record = Load;

    ghost maps = { load_maps };

    ghost last = { 2 };

    ghost absent = { λ of. absent_load };

    ghost field = { λ of. load_field of.gates };

    fn maps(&self) -> u8 {
        LOAD_MAPS
    }

    fn last(&self) -> u8 {
        2
    }

    fn absent(&self) -> Load {
        absent_load()
    }

    #[tactic(auto, unfolding(crate::specs::Load::load_field))]
    fn read_field(&self, bytes: &mut Cursor, k: u8, l: &mut Load) -> Result<(), Refusal> {
        match k {
            0 => read_loss_gate(bytes, self.gates, l),
            1 => read_customers(bytes, l),
            _ => read_minutes(bytes, l),
        }
    }

    ghost fit = { Prim.search rules };

    ghost all = { Prim.search rules };
}

// One load record of a study with so many gates.
#[tactic(auto, unfolding(crate::specs::Load::load))]
pub fn read_load(bytes: &mut Cursor, gates: u8) -> Result<Load, Refusal>
    ensures { read_of result bytes.new.rest.now ≡ load gates bytes.old.rest.now }
{
    read_record(bytes, &LoadFields { gates })
}
