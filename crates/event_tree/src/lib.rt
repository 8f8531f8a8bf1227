// The paths of the reduced event tree, from a block of classes: the ways on at a component, how many paths there are,
// and the list of them. Gates and probabilities are not known here. Not for callers from outside: those call
// `planning`.
#![tactic(auto)]

mod blank;
mod block;
mod count;
mod lent;
mod list;
mod marks;
mod parts;

pub use blank::Ways;
pub use block::ClassBlock;
pub use lent::list_lent;
pub use parts::Fork;
