// The interruption figures, from bounds for the loss of each load, its customers and its minutes. Paths are not known here. Not for callers
// from outside: those call `planning`.
#![tactic(auto)]

mod figures;
mod parts;
mod sums;

pub use figures::{Losses, figures_of};
pub use sums::customers_sum;
