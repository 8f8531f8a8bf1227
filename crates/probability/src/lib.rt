// Bounds of paths, from a list of them and a table of probabilities, the factor that each component brings, and what
// one class comes to. Gates and studies are not known here. Not for callers from outside: those call `planning`.
#![tactic(auto)]

mod classes;
mod listed;
mod path;
mod probabilities;
mod sums;

pub use classes::ClassTotal;
pub use listed::ListedPaths;
pub use path::{factored, path_bound};
pub use probabilities::first_components;
pub use sums::sum_at_most;
