// The calls for the paths and classes of a study, by its gates or by a drawn tree, as a source says: the list of its
// paths, and bounds in two lent slices.
#![tactic(auto)]

mod classes;
mod listing;
mod tree_paths;

pub use classes::class_bounds;
pub use listing::list_paths;
pub use tree_paths::path_bounds;
