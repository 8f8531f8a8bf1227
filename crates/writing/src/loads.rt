// The load records of a study.
ghost use Rattle.std.specs.Prelude.{◌≡◌};
ghost use Rattle.text.specs.Writer.{Room, Wrote};
ghost use Rattle.soundness.specs.Sound.{Sound};
ghost use Rattle.study_bytes.specs.Written.{map_of, load_fields, load_bytes, loads_bytes};

use crate::fields::{byte_field, map_of, number_field};
use study::{Load, Study, absent_load};
use text::Writer;

// The map of a load's record.
fn load_map(l: &Load) -> u8
    ensures { result ≡ map_of (load_fields l.now) }
{
    let absent = absent_load();
    map_of(
        l.gate != absent.gate,
        l.customers != absent.customers,
        l.minutes != absent.minutes,
        false,
    )
}

// Writes the record of a load.
#[tactic(auto, using(text::proofs::Written::pieces), unfolding(study_bytes::specs::Written::record_bytes, lists::specs::Rows::joined))]
fn write_load(l: &Load, out: &mut Writer)
    requires { Room out.old (load_bytes l.now) }
    ensures { Wrote out.old (load_bytes l.now) out.new }
{
    let absent = absent_load();
    out.put(&[load_map(l)]);
    byte_field(out, absent.gate, l.gate);
    number_field(out, absent.customers, l.customers);
    number_field(out, absent.minutes, l.minutes);
}

// Writes the records of a sound study's loads.
pub fn write_loads(t: &Study, out: &mut Writer)
    requires sound { Sound t.now }
    requires room { Room out.old (loads_bytes t.now) }
    ensures { Wrote out.old (loads_bytes t.now) out.new }
{
    for l in &t.load[..usize::from(t.loads)] {
        write_load(l, out);
    }
}
