// The component records of a study.
ghost use Rattle.std.specs.Prelude.{◌≡◌};
ghost use Rattle.text.specs.Writer.{Room, Wrote};
ghost use Rattle.soundness.specs.Sound.{Sound};
ghost use Rattle.study_bytes.specs.Written.{map_of, component_fields, component_bytes, components_bytes};

use crate::fields::{byte_field, map_of, number_field};
use study::{Component, Study, absent_component};
use text::Writer;

// The map of a component's record.
fn component_map(c: &Component) -> u8
    ensures { result ≡ map_of (component_fields c.now) }
{
    let absent = absent_component();
    map_of(
        c.states != absent.states,
        c.p1 != absent.p1,
        c.p2 != absent.p2,
        c.p3 != absent.p3,
    )
}

// Writes the record of a component.
#[tactic(auto, using(text::proofs::Written::pieces), unfolding(study_bytes::specs::Written::record_bytes, lists::specs::Rows::joined))]
fn write_component(c: &Component, out: &mut Writer)
    requires { Room out.old (component_bytes c.now) }
    ensures { Wrote out.old (component_bytes c.now) out.new }
{
    let absent = absent_component();
    out.put(&[component_map(c)]);
    byte_field(out, absent.states, c.states);
    number_field(out, absent.p1, c.p1);
    number_field(out, absent.p2, c.p2);
    number_field(out, absent.p3, c.p3);
}

// Writes the records of a sound study's components.
pub fn write_components(t: &Study, out: &mut Writer)
    requires sound { Sound t.now }
    requires room { Room out.old (components_bytes t.now) }
    ensures { Wrote out.old (components_bytes t.now) out.new }
{
    for c in &t.component[..usize::from(t.components)] {
        write_component(c, out);
    }
}
