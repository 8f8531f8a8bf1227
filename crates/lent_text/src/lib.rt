// A text that is written whole before any of it is handed over, so that a buffer which is too short for it stays as it
// was.
#![tactic(auto)]

ghost use Rattle.std.specs.Prelude.{◌<◌, ◌^◌, ◌≡◌, length};
ghost use Rattle.answers.specs.Answers.{by_number};
ghost use Rattle.lent_text.specs.Lent.{reported, written};

use rules::{Refusal, room_fault};

// Copies a text to the front of a lent buffer, and answers how many bytes it has. Refused by 18.
#[tactic(auto, using(crate::proofs::Handed::handing), unfolding(rules::specs::Breach::refuse, lists::specs::Rows::put))]
pub fn hand_over(text: &[u8], buffer: &mut [u8]) -> Result<u32, Refusal>
    requires { length text.now < 2 ^ 32 }
    ensures answer { by_number result ≡ reported text.now buffer.old }
    ensures buffer { buffer.new ≡ written text.now buffer.old }
{
    room_fault(text.len(), buffer.len())?;
    buffer[..text.len()].copy_from_slice(text);
    Ok(text.len() as u32)
}
