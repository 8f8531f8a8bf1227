// The calls for the losses of a study, by its gates or by a drawn tree, as a source says: bounds for the loss of a
// load, and the interruption figures.
#![tactic(auto)]

mod interruptions;
mod loads;

pub use interruptions::figures;
pub use loads::load_bounds;
