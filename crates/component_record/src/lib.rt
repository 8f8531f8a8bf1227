// Reads one component record. Not for callers from outside.
#![tactic(auto)]

ghost use Rattle.std.specs.Prelude.{◌≡◌};
ghost use Rattle.std.proofs.Common.{rules};
ghost use Rattle.rules.specs.Limits.{component_maps};
ghost use Rattle.reading.specs.Reader.{read_of, read_into};
ghost use Rattle.study.specs.Absent.{absent_component};
ghost use Rattle.component_record.specs.Component.{state_count, probability, component_field, component};

use reading::{Cursor, Fields, read_record};
use rules::{COMPONENT_MAPS, Refusal, no_state_fault, states_fault, sum_fault};
use study::{Component, absent_component};

// The field of bit 0.
#[tactic(auto, unfolding(crate::specs::Component::state_count))]
fn read_state_count(bytes: &mut Cursor, c: &mut Component) -> Result<(), Refusal>
    ensures { read_into result c.new bytes.new.rest.now ≡ state_count c.old bytes.old.rest.now }
{
    let states = bytes.byte()?;
    states_fault(states)?;
    c.states = states;
    Ok(())
}

// The field of bit 1, 2 or 3.
#[tactic(auto, unfolding(crate::specs::Component::probability))]
fn read_probability(bytes: &mut Cursor, state: u8, c: &mut Component) -> Result<(), Refusal>
    ensures { read_into result c.new bytes.new.rest.now ≡ probability state c.old bytes.old.rest.now }
{
    no_state_fault(c.states, state)?;
    let p = bytes.word()?;
    match state {
        1 => c.p1 = p,
        2 => c.p2 = p,
        3 => c.p3 = p,
        _ => (),
    }
    Ok(())
}

// The fields of a component: its state count, and the probabilities of its states 1 to 3.
struct ComponentFields;

impl Fields for ComponentFields {
    type Record = Component;

    ghost maps = { component_maps };

    ghost last = { 3 };

    ghost absent = { λ of. absent_component };

    ghost field = { λ of. component_field };

    fn maps(&self) -> u8 {
        COMPONENT_MAPS
    }

    fn last(&self) -> u8 {
        3
    }

    fn absent(&self) -> Component {
        absent_component()
    }

    #[tactic(auto, unfolding(crate::specs::Component::component_field))]
    fn read_field(&self, bytes: &mut Cursor, k: u8, c: &mut Component) -> Result<(), Refusal> {
        if k == 0 {
            return read_state_count(bytes, c);
        }
        read_probability(bytes, k, c)
    }

    ghost fit = { Prim.search rules };

    ghost all = { Prim.search rules };
}

// One component record.
#[tactic(auto, unfolding(crate::specs::Component::component))]
pub fn read_component(bytes: &mut Cursor) -> Result<Component, Refusal>
    ensures { read_of result bytes.new.rest.now ≡ component bytes.old.rest.now }
{
    let c = read_record(bytes, &ComponentFields)?;
    sum_fault(c.p1, c.p2, c.p3)?;
    Ok(c)
}
