// Opening: the study is kept in a lent slice as its image.
ghost use Rattle.std.specs.Prelude.{◌≡◌};
ghost use Rattle.rules.specs.Refusals.{breach_of};
ghost use Rattle.answers.specs.Answered.{filled};
ghost use Rattle.editing.specs.Edits.{edit_answer};
ghost use Rattle.study_image.specs.Image.{image_of, study_in};
ghost use Rattle.export_studies.specs.Images.{keep_fault, KeepsStudy, Opens};

use export_answers::{answer_outcome, refused};
use rules::{Refusal, room_fault};
use study::Study;
use study_image::{IMAGE_BYTES, write_image};

// Stores a study as an image at the front of a slice, where what made it was done. Refused as that was, then by 18.
#[tactic(auto, using(crate::proofs::Kept::keeping), unfolding(crate::specs::Images::keep_fault))]
fn store(outcome: Result<(), Refusal>, study: &Study, image: &mut [u8]) -> Result<(), Refusal>
    ensures judged { breach_of result ≡ keep_fault (edit_answer outcome study.now) image.old }
    ensures written { image.new ≡ filled (breach_of result) (image_of study.now) image.old }
    ensures held { breach_of result ≡ 0 → study_in image.new ≡ study.now }
{
    outcome?;
    room_fault(IMAGE_BYTES, image.len())?;
    write_image(study, image);
    Ok(())
}

// Keeps a study as an image at the front of a slice, by the outcome of what made it.
pub fn keep(outcome: Result<(), Refusal>, study: &Study, image: &mut [u8]) -> i64
    ensures { KeepsStudy (edit_answer outcome study.now) image.old image.new result }
{
    answer_outcome(store(outcome, study, image))
}

// Opens a study; its image stands at the front of the slice. Refused by the first breach met, 1 to 15, then by 18.
pub fn open(bytes: &[u8], study: &mut [u8]) -> i64
    ensures { Opens bytes.now study.old study.new result }
{
    match opening::open(bytes) {
        Ok(opened) => keep(Ok(()), &opened, study),
        Err(refusal) => refused(refusal),
    }
}
