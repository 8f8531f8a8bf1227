// A class, and its bytes: how many they are, and how they are read and written. Nothing else in the package knows.
ghost use Rattle.std.specs.Prelude.{◌+◌, ◌≤◌, ◌≡◌, length, drop};
ghost use Rattle.std.specs.Int.Count.{ones};
ghost use Rattle.reading.specs.Reader.{read_by};
ghost use Rattle.text.specs.Writing.{Room, Wrote};
ghost use Rattle.entries.specs.ClassReader.{class_or};
ghost use Rattle.entries.specs.Entries.{class_bytes, class_code, class_read};

use reading::Cursor;
use rules::{LOAD_PLACES, Row};

// A class: bit j stands where load j is lost.
pub type Class = u8;

// As many classes as there are sets of loads.
pub const CLASS_PLACES: usize = 1 << LOAD_PLACES;

// The bytes of a class.
pub const CLASS_BYTES: usize = 1;

// The class whose bytes stand at a place.
pub fn class_from(bytes: &[u8], at: usize) -> Class
    requires { at + class_bytes ≤ length bytes.now }
    ensures { result ≡ class_read (drop at bytes.now) }
{
    bytes[at]
}

// The next class; where the bytes end before or inside it, a refusal by the row `end`.
pub fn class_or<E: Row>(bytes: &mut Cursor, end: E) -> Result<Class, E>
    ensures { read_by E.row_number result bytes.new.rest.now ≡ class_or (E.row_number end) bytes.old.rest.now }
{
    bytes.byte_or(end)
}

// Writes the bytes of a class at a place of a buffer, and answers the place behind them.
pub fn write_class(out: &mut [u8], at: usize, class: Class) -> usize
    requires { Room out.old at (class_code class) }
    ensures { Wrote out.old at (class_code class) out.new result }
{
    out[at] = class;
    at + CLASS_BYTES
}

// How many bits of a class stand.
pub fn class_ones(class: Class) -> u32
    ensures { result ≡ ones class }
{
    class.count_ones()
}
