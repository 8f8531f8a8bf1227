// The losses of an opened study for C, by its gates or by a drawn tree: bounds for the loss of a load, and the
// interruption figures; and the loads that a class loses.
#![tactic(auto)]

mod interruptions;
mod loads;

pub use interruptions::figures;
pub use loads::{load_bounds, loads_lost};
