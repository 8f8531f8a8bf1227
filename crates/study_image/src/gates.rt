// The gate places of an image.
ghost use Rattle.std.specs.Prelude.{ℕ, ◌+◌, ◌*◌, ◌<◌, ◌≤◌, ◌≡◌, length, get_or};
ghost use Rattle.lists.specs.Tabulate.{tabulate};
ghost use Rattle.rules.specs.Limits.{most_gates};
ghost use Rattle.text.specs.Writer.{Wrote};
ghost use Rattle.study.specs.Places.{no_gate};
ghost use Rattle.study_image.specs.Places.{gate_bytes, image_bytes};
ghost use Rattle.study_image.specs.Fits.{GateFits};
ghost use Rattle.study_image.specs.Image.{gate_row, gate_rows, gate_in};

use crate::fields::read_row;
use crate::places::{
    GATE_BYTES, GATES_AT, INPUT_COUNT_AT, INPUTS_AT, TEST_COMPONENTS_AT, TEST_COUNT_AT,
    TEST_MASKS_AT,
};
use rules::GATE_PLACES;
use std::array;
use study::Gate;
use text::Writer;

// Writes a gate, which fits its bytes.
#[tactic(auto, using(text::proofs::Written::pieces), unfolding(crate::specs::Image::gate_row, lists::specs::Rows::joined))]
fn write_gate(g: &Gate, image: &mut Writer)
    requires { image.old.size + gate_bytes ≤ length image.old.buffer.now }
    ensures written { Wrote image.old (gate_row g.now) image.new }
    ensures fits { GateFits g.now }
{
    image.put(&[g.threshold, g.tests]);
    image.put(&g.component);
    image.put(&g.mask);
    image.put(&[g.gates]);
    image.put(&g.input);
}

// Writes the gates of all places, each of which fits its bytes.
pub fn write_gates(gate: &[Gate; GATE_PLACES], image: &mut Writer)
    requires { image.old.size + most_gates * gate_bytes ≤ length image.old.buffer.now }
    ensures written { Wrote image.old (gate_rows gate.now) image.new }
    ensures behind { image.new.size ≡ image.old.size + most_gates * gate_bytes }
    ensures long { length gate.now ≡ most_gates }
    ensures fits { (i : ℕ) → i < most_gates → GateFits (get_or gate.now i no_gate) }
{
    for g in gate {
        write_gate(g, image);
    }
}

// The gate of a place.
fn read_gate(image: &[u8], i: usize) -> Gate
    requires place { i < most_gates }
    requires whole { image_bytes ≤ length image.now }
    ensures { result ≡ gate_in image.now i }
{
    let at = GATES_AT + i * GATE_BYTES;
    Gate {
        threshold: image[at],
        tests: image[at + TEST_COUNT_AT],
        component: read_row(image, at + TEST_COMPONENTS_AT),
        mask: read_row(image, at + TEST_MASKS_AT),
        gates: image[at + INPUT_COUNT_AT],
        input: read_row(image, at + INPUTS_AT),
    }
}

// The gates of all places.
pub fn read_gates(image: &[u8]) -> [Gate; GATE_PLACES]
    requires { image_bytes ≤ length image.now }
    ensures { result ≡ tabulate (gate_in image.now) most_gates }
{
    array::from_fn(|i| read_gate(image, i))
}
