// Reading bytes: a cursor that takes them from left to right, and the bits of a record's map. Not for callers from
// outside.
#![tactic(auto)]

mod cursor;
mod fields;
mod record;

pub use cursor::Cursor;
pub use fields::{field_count, fields_behind, map_digit};
pub use record::{Fields, fill_record, read_record};
