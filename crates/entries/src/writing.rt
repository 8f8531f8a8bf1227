// Writing the entries of a list.
ghost use Rattle.lists.specs.Cleared.{Cleared};
ghost use Rattle.text.specs.Writing.{Room, Wrote};
ghost use Rattle.entries.specs.Entries.{entry, list_bytes};

use crate::class::{Class, write_class};
use crate::layout::LIST_BYTES;
use text::copy;

// Room for any list, cleared.
pub fn empty_list() -> [u8; LIST_BYTES]
    ensures { Cleared list_bytes result }
{
    [0; LIST_BYTES]
}

// Writes the entry with these marks and this class at a place of a buffer, and answers the place behind it.
pub fn write_entry(marks: &[u8], class: Class, out: &mut [u8], at: usize) -> usize
    requires { Room out.old at (entry marks.now class) }
    ensures { Wrote out.old at (entry marks.now class) out.new result }
{
    let behind = copy(out, at, marks);
    write_class(out, behind, class)
}
