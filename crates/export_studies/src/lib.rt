// Opening, the edits and saving for C: a study is kept by its caller as an image in a lent slice.
#![tactic(auto)]

mod edits;
mod images;
mod saving;

pub use edits::{set_customers, set_minutes, set_probabilities};
pub use images::open;
pub use saving::write;
