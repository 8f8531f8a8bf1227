// The lines of a report, from lists, tables and figures that are worked out already, and which classes have one. Who
// calls a function that writes has the room.
#![tactic(auto)]

mod class_list;
mod class_text;
mod figure_text;
mod listed_classes;
mod load_text;
mod marks;
mod path_text;

pub use class_list::occurring;
pub use class_text::class_lines;
pub use figure_text::figure_lines;
pub use listed_classes::listed_class_lines;
pub use load_text::load_lines;
pub use path_text::path_lines;
