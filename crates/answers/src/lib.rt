// What the calls hand back where they are not refused: counts, bounds, figures and chances. A call that can be refused
// answers a `Result` of these, with the refusal in their place.
#![tactic(auto)]

mod chances;
mod counts;
mod figures;

pub use chances::Chances;
pub use counts::PathCount;
pub use figures::{Caidi, Figures};
pub use units::Enclosure;
