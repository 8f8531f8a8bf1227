// The image of a study: the fixed bytes by which programs in other languages hold an opened study. Any slice of so many bytes holds some study;
// whether it is sound is for the calls of `planning` to tell.
#![tactic(auto)]

mod components;
mod fields;
mod gates;
mod loads;
mod places;

ghost use Rattle.std.specs.Prelude.{◌≤◌, ◌≡◌, length};
ghost use Rattle.lists.specs.Rows.{put};
ghost use Rattle.study_image.specs.Places.{image_bytes};
ghost use Rattle.study_image.specs.Image.{image_of, study_in};
ghost use Rattle.study_image.specs.Fits.{StudyFits};

use components::{read_components, write_components};
use gates::{read_gates, write_gates};
use loads::{read_loads, write_loads};
pub use places::IMAGE_BYTES;
use places::{COMPONENT_COUNT_AT, GATE_COUNT_AT, LOAD_COUNT_AT};
use study::{Study, zero_study};
use text::Writer;

// Writes the image of a study at the front of a slice that has the room. Each study fits, so that its image holds it
// (`image-back`).
#[tactic(auto, using(text::proofs::Written::pieces), unfolding(crate::specs::Image::image_of, lists::specs::Rows::joined))]
pub fn write_image(study: &Study, image: &mut [u8])
    requires { image_bytes ≤ length image.old }
    ensures written { image.new ≡ put image.old 0 (image_of study.now) }
    ensures fits { StudyFits study.now }
{
    let mut image = Writer::new(image);
    image.put(&[study.components, study.gates, study.loads]);
    write_components(&study.component, &mut image);
    write_gates(&study.gate, &mut image);
    write_loads(&study.load, &mut image);
}

// The study that an image holds; a slice too short for one holds a study of zeros.
#[tactic(auto, unfolding(crate::specs::Image::study_in))]
pub fn read_image(image: &[u8]) -> Study
    ensures { result ≡ study_in image.now }
{
    if image.len() < IMAGE_BYTES {
        return zero_study();
    }
    Study {
        components: image[COMPONENT_COUNT_AT],
        gates: image[GATE_COUNT_AT],
        loads: image[LOAD_COUNT_AT],
        component: read_components(image),
        gate: read_gates(image),
        load: read_loads(image),
    }
}
