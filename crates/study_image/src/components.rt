// The component places of an image.
ghost use Rattle.std.specs.Prelude.{ℕ, ◌+◌, ◌*◌, ◌<◌, ◌≤◌, ◌≡◌, length, get_or};
ghost use Rattle.lists.specs.Tabulate.{tabulate};
ghost use Rattle.rules.specs.Limits.{most_components};
ghost use Rattle.text.specs.Writer.{Wrote};
ghost use Rattle.study.specs.Zero.{zero_component};
ghost use Rattle.study_image.specs.Places.{component_bytes, image_bytes};
ghost use Rattle.study_image.specs.Fits.{ComponentFits};
ghost use Rattle.study_image.specs.Image.{component_row, component_rows, component_in};

use crate::fields::read_number;
use crate::places::{COMPONENT_BYTES, COMPONENTS_AT, P1_AT, P2_AT, P3_AT};
use rules::COMPONENT_PLACES;
use std::array;
use study::Component;
use text::Writer;

// Writes a component, which fits its bytes.
#[tactic(auto, using(text::proofs::Written::pieces))]
fn write_component(c: &Component, image: &mut Writer)
    requires { image.old.size + component_bytes ≤ length image.old.buffer.now }
    ensures written { Wrote image.old (component_row c.now) image.new }
    ensures fits { ComponentFits c.now }
{
    image.put(&[c.states]);
    image.put(&c.p1.to_le_bytes());
    image.put(&c.p2.to_le_bytes());
    image.put(&c.p3.to_le_bytes());
}

// Writes the components of all places, each of which fits its bytes.
pub fn write_components(component: &[Component; COMPONENT_PLACES], image: &mut Writer)
    requires { image.old.size + most_components * component_bytes ≤ length image.old.buffer.now }
    ensures written { Wrote image.old (component_rows component.now) image.new }
    ensures behind { image.new.size ≡ image.old.size + most_components * component_bytes }
    ensures long { length component.now ≡ most_components }
    ensures fits { (i : ℕ) → i < most_components → ComponentFits (get_or component.now i zero_component) }
{
    for c in component {
        write_component(c, image);
    }
}

// The component of a place.
fn read_component(image: &[u8], i: usize) -> Component
    requires place { i < most_components }
    requires whole { image_bytes ≤ length image.now }
    ensures { result ≡ component_in image.now i }
{
    let at = COMPONENTS_AT + i * COMPONENT_BYTES;
    Component {
        states: image[at],
        p1: read_number(image, at + P1_AT),
        p2: read_number(image, at + P2_AT),
        p3: read_number(image, at + P3_AT),
    }
}

// The components of all places.
pub fn read_components(image: &[u8]) -> [Component; COMPONENT_PLACES]
    requires { image_bytes ≤ length image.now }
    ensures { result ≡ tabulate (component_in image.now) most_components }
{
    array::from_fn(|i| read_component(image, i))
}
