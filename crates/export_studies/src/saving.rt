// Saving: the bytes of an opened study, in a lent buffer.
ghost use Rattle.export_studies.specs.Saving.{Saves};

use export_answers::answer_count;
use study_image::read_image;

// Writes a study at the front of the buffer; answers how many bytes it has. Refused by 16, 18, in this order.
pub fn write(study: &[u8], bytes: &mut [u8]) -> i64
    ensures { Saves study.now bytes.old bytes.new result }
{
    answer_count(writing::write(&read_image(study), bytes))
}
