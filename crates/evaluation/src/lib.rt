// What is worked out of a model in hand and a class table: bounds of its paths, classes and loads, and the figures.
// Classes and loads need no list of paths. Not for callers from outside: those call `planning`.
#![tactic(auto)]

mod classes;
mod figures;
mod losses;
mod rooms;
mod tree_paths;

pub use classes::{bound_classes, write_classes};
pub use figures::{figures_from, figures_in};
pub use losses::loss_bounds;
pub use rooms::pair_fault;
pub use tree_paths::bound_paths;
