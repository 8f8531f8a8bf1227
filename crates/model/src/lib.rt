// The model: what a call is about once its refusals are past. Everything behind the class table is said of a model and
// not of a study, so that a table of classes which comes from elsewhere has the same paths, bounds and figures. What
// the code holds of a model; the rest is definitions and laws.
#![tactic(auto)]

use rules::{COMPONENT_PLACES, LOAD_PLACES};
use study::Load;

// The places of a table of probabilities: four for each component.
pub const PROBABILITY_PLACES: usize = 48;

// A model in hand, but for its classes, which stand in a table beside it. What is in use stands in front of arrays
// that have room for any model.
#[derive(Clone, Copy)]
pub struct HeldModel {
    pub components: u8,
    pub counts: [u8; COMPONENT_PLACES],
    pub probabilities: [u32; PROBABILITY_PLACES],
    pub loads: u8,
    pub load: [Load; LOAD_PLACES],
}
