// The fault trees of a study: the truth of its gates in a joint state, the class of a joint state, and the classes of all. Probabilities are not
// known here. Not for callers from outside: those call `planning`.
#![tactic(auto)]

mod class;
mod gates;
mod table;
mod truth;

pub use class::loads_lost;
pub use table::put_classes;
