// What an entry of a list of paths is: a mark for each component, then the class of the path. Its bytes and those of a
// class, reading and writing them, rows of classes, and the room that the longest list takes. Not for callers from
// outside: those call `planning`.
#![tactic(auto)]

mod class;
mod layout;
mod list;
mod row;
mod writing;

pub use class::{CLASS_PLACES, Class, class_ones, class_or};
pub use layout::{BLANK, LIST_BYTES};
pub use list::{class_at, class_of, entry_at, entry_bytes, list_need};
pub use row::{classes_from, same_classes, set_class};
pub use writing::{empty_list, write_entry};
