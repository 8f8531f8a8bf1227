// Shows the list of paths that a call wrote: its entries, or the sums of its columns.
ghost use Rattle.std.specs.Prelude.{◌<◌, ◌≡◌, length};
ghost use Rattle.entries.specs.Entries.{list_bytes};

use crate::numbers::separator;
use entries::{BLANK, Class, LIST_BYTES, class_of, entry_bytes};
use std::{fmt, io};

// Room for the longest list that there is, with a value in each byte.
pub fn filled_list(fill: u8) -> [u8; LIST_BYTES]
    ensures { list_bytes ≡ length result }
{
    [fill; LIST_BYTES]
}

// An entry of a list: its marks, a component's state or `-` where it is blank, then its class.
#[derive(Clone, Copy)]
struct Entry<'a> {
    marks: &'a [u8],
    class: Class,
}

impl fmt::Display for Entry<'_> {
    fn fmt<W: fmt::Write>(&self, f: &mut fmt::Formatter<W>) -> fmt::Result {
        for mark in self.marks {
            if *mark == BLANK {
                f.write_str("-")?;
            } else {
                write!(f, "{mark}")?;
            }
        }
        write!(f, " {}", self.class)
    }
}

// Shows each entry of a list on a line.
pub fn show_entries(out: &impl Print, list: &[u8], components: u8) -> io::Result<()> {
    let n = usize::from(components);
    for bytes in list.chunks_exact(entry_bytes(n)) {
        let entry = Entry {
            marks: &bytes[..n],
            class: class_of(n, bytes),
        };
        println!(out; "{entry}")?;
    }
    Ok(())
}

// The sum of the bytes in a column of entries of this width.
fn column_sum(list: &[u8], width: usize, column: usize) -> u64
    requires { 0 < width }
{
    list.chunks(width)
        .filter_map(|entry| entry.get(column))
        .fold(0u64, |sum, byte| sum.saturating_add(u64::from(*byte)))
}

// Shows the sum of each column of a list on a line; nothing where there is no entry.
pub fn show_sums(out: &impl Print, list: &[u8], components: u8) -> io::Result<()> {
    if list.is_empty() {
        return Ok(());
    }
    let width = entry_bytes(usize::from(components));
    for column in 0..width {
        let behind = separator(column + 1 == width);
        print!(out; "{}{behind}", column_sum(list, width, column))?;
    }
    Ok(())
}
