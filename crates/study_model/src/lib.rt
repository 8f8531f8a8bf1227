// A sound study as a model in hand: what everything behind the class table is worked out of. Here a study's structs
// become slices: the state counts and probabilities of its components, and the front of a class table, wherever that
// comes from. Not for callers from outside: those call `planning`.
#![tactic(auto)]

mod adding;
mod block;
mod holding;
mod in_hand;
mod listing;
mod probabilities;

pub use block::counts_in_use;
pub use holding::hold;
pub use in_hand::ModelInHand;
