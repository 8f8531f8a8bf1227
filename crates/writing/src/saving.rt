// The call that writes a study out. The study is written whole on a page of its own before any of it is handed over, so
// that the exact number of its bytes decides whether the lent buffer has the room.
ghost use Rattle.std.specs.Prelude.{◌≡◌};
ghost use Rattle.answers.specs.Answers.{by_number};
ghost use Rattle.lent_text.specs.Lent.{reported, written};
ghost use Rattle.soundness.specs.Sound.{Sound};
ghost use Rattle.study_bytes.specs.Written.{study_bytes};
ghost use Rattle.writing.specs.Saving.{study_written, buffer_written};

use crate::records::write_study;
use lent_text::hand_over;
use rules::{LONGEST_STUDY, Refusal, unsound_fault};
use soundness::is_sound;
use study::Study;

// Writes a sound study at the front of a lent buffer. Refused by 18.
fn write_sound(t: &Study, buffer: &mut [u8]) -> Result<u32, Refusal>
    requires { Sound t.now }
    ensures answer { by_number result ≡ reported (study_bytes t.now) buffer.old }
    ensures buffer { buffer.new ≡ written (study_bytes t.now) buffer.old }
{
    let mut page = [0; LONGEST_STUDY];
    let size = write_study(t, &mut page);
    hand_over(&page[..size], buffer)
}

// Writes a study at the front of a lent buffer, and answers how many bytes it has. Refused by 16, 18, in this order.
#[tactic(auto, using(crate::proofs::Saved::saving), unfolding(crate::specs::Saving::write_fault, crate::specs::Saving::study_written, crate::specs::Saving::buffer_written, lent_text::specs::Lent::text_fault, lent_text::specs::Lent::reported, lent_text::specs::Lent::written))]
pub fn write(study: &Study, buffer: &mut [u8]) -> Result<u32, Refusal>
    ensures answer { by_number result ≡ study_written study.now buffer.old }
    ensures buffer { buffer.new ≡ buffer_written study.now buffer.old }
{
    unsound_fault(is_sound(study))?;
    write_sound(study, buffer)
}
