// The calls of the planning package. None asks anything of its caller: what is wrong is refused by the first breach met,
// and nothing that was lent or handed in is changed then. Each is passed on from the crate that does it.
#![tactic(auto)]

pub use answers::{Caidi, Chances, Enclosure, Figures, PathCount};
pub use editing::{set_customers, set_minutes, set_probabilities};
pub use entries::CLASS_PLACES;
pub use fault_tree::loads_lost;
pub use loss_calls::{figures, load_bounds};
pub use meaning::Source;
pub use opening::open;
pub use path_calls::{class_bounds, list_paths, path_bounds};
pub use report_text::{REPORT_BYTES, report};
pub use rules::{LONGEST_STUDY, Refusal};
pub use survival::survival;
pub use words::refusal_word;
pub use writing::write;
