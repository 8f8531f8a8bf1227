// All records of a study behind their counts. Who calls a function of this crate that writes has the room.
ghost use Rattle.std.specs.Prelude.{◌≤◌, ◌≡◌, length};
ghost use Rattle.lists.specs.Rows.{put};
ghost use Rattle.text.specs.Writer.{Room, Wrote};
ghost use Rattle.soundness.specs.Sound.{Sound};
ghost use Rattle.study_bytes.specs.Written.{study_bytes};

use crate::components::write_components;
use crate::gates::write_gates;
use crate::loads::write_loads;
use study::Study;
use text::Writer;

// Writes the counts and the records of a sound study.
#[tactic(auto, using(text::proofs::Written::pieces), unfolding(study_bytes::specs::Written::study_bytes))]
fn write_records(t: &Study, out: &mut Writer)
    requires sound { Sound t.now }
    requires room { Room out.old (study_bytes t.now) }
    ensures { Wrote out.old (study_bytes t.now) out.new }
{
    out.put(&[t.components, t.gates, t.loads]);
    write_components(t, out);
    write_gates(t, out);
    write_loads(t, out);
}

// Writes a sound study at the front of a page, and answers how many bytes it has.
pub fn write_study(t: &Study, page: &mut [u8]) -> usize
    requires sound { Sound t.now }
    requires room { length (study_bytes t.now) ≤ length page.old }
    ensures written { page.new ≡ put page.old 0 (study_bytes t.now) }
    ensures size { result ≡ length (study_bytes t.now) }
{
    let mut out = Writer::new(page);
    write_records(t, &mut out);
    out.size()
}
