// Totals of classes or loads over the paths of a block, path by path: the recursion carries the two bounds of a path as
// far as it has gone, so that no list of paths is held and nothing is multiplied twice. Gates and studies are not known
// here. Not for callers from outside: those call `planning`.
#![tactic(auto)]

mod adding;
mod clearing;
mod walk;

pub use adding::{ByClass, ByLoad, Tally};
pub use clearing::{clear, no_totals};
pub use walk::add_totals;
