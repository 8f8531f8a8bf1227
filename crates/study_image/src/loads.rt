// The load places of an image.
ghost use Rattle.std.specs.Prelude.{ℕ, ◌+◌, ◌*◌, ◌<◌, ◌≤◌, ◌≡◌, length, get_or};
ghost use Rattle.lists.specs.Tabulate.{tabulate};
ghost use Rattle.rules.specs.Limits.{most_loads};
ghost use Rattle.text.specs.Writer.{Wrote};
ghost use Rattle.study.specs.Zero.{zero_load};
ghost use Rattle.study_image.specs.Places.{load_bytes, image_bytes};
ghost use Rattle.study_image.specs.Fits.{LoadFits};
ghost use Rattle.study_image.specs.Image.{load_row, load_rows, load_in};

use crate::fields::read_number;
use crate::places::{CUSTOMERS_AT, LOAD_BYTES, LOADS_AT, MINUTES_AT};
use rules::LOAD_PLACES;
use std::array;
use study::Load;
use text::Writer;

// Writes a load, which fits its bytes.
#[tactic(auto, using(text::proofs::Written::pieces))]
fn write_load(l: &Load, image: &mut Writer)
    requires { image.old.size + load_bytes ≤ length image.old.buffer.now }
    ensures written { Wrote image.old (load_row l.now) image.new }
    ensures fits { LoadFits l.now }
{
    image.put(&[l.gate]);
    image.put(&l.customers.to_le_bytes());
    image.put(&l.minutes.to_le_bytes());
}

// Writes the loads of all places, each of which fits its bytes.
pub fn write_loads(load: &[Load; LOAD_PLACES], image: &mut Writer)
    requires { image.old.size + most_loads * load_bytes ≤ length image.old.buffer.now }
    ensures written { Wrote image.old (load_rows load.now) image.new }
    ensures behind { image.new.size ≡ image.old.size + most_loads * load_bytes }
    ensures long { length load.now ≡ most_loads }
    ensures fits { (i : ℕ) → i < most_loads → LoadFits (get_or load.now i zero_load) }
{
    for l in load {
        write_load(l, image);
    }
}

// The load of a place.
fn read_load(image: &[u8], j: usize) -> Load
    requires place { j < most_loads }
    requires whole { image_bytes ≤ length image.now }
    ensures { result ≡ load_in image.now j }
{
    let at = LOADS_AT + j * LOAD_BYTES;
    Load {
        gate: image[at],
        customers: read_number(image, at + CUSTOMERS_AT),
        minutes: read_number(image, at + MINUTES_AT),
    }
}

// The loads of all places.
pub fn read_loads(image: &[u8]) -> [Load; LOAD_PLACES]
    requires { image_bytes ≤ length image.now }
    ensures { result ≡ tabulate (load_in image.now) most_loads }
{
    array::from_fn(|j| read_load(image, j))
}
