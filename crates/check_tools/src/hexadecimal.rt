// Bytes in hexadecimal, read, shown and written.
#[cfg(test)]
mod tests;

ghost use Rattle.std.specs.Prelude.{◌<◌, ◌≤◌, length};

use std::{fmt, io};

// The number of a digit. A letter of either case has its number, from 1 on, in its last four bits, and stands in a
// higher row of 64 characters than the figures. What is no digit has a number too.
fn digit(character: u8) -> u8
    ensures { result < 16 }
{
    (character % 16 + character / 64 * 9) % 16
}

// Puts the bytes of a text of digits at the front of a buffer of zeros, and answers that front. Blanks between the
// digits are left out, and so is half a byte at the end, or what has no room.
pub fn decode<'a>(text: &[u8], out: &'a mut [u8]) -> &'a [u8]
    ensures { length result.now ≤ length out.old }
{
    let mut digits: usize = 0;
    for character in text {
        if *character != b' ' {
            let at = digits / 2;
            if out.len() <= at {
                break;
            }
            out[at] = out[at] % 16 * 16 + digit(*character);
            digits += 1;
        }
    }
    &out[..digits / 2]
}

// Bytes as two digits each, parted by single blanks.
#[derive(Clone, Copy)]
struct Hexadecimal<'a>(&'a [u8]);

impl fmt::Display for Hexadecimal<'_> {
    fn fmt<W: fmt::Write>(&self, f: &mut fmt::Formatter<W>) -> fmt::Result {
        for (place, byte) in self.0.iter().enumerate() {
            if place != 0 {
                f.write_str(" ")?;
            }
            write!(f, "{byte:02X}")?;
        }
        Ok(())
    }
}

// Shows some bytes on a line; none are no line. It is one line of text, so that an output may take text alone.
pub fn show_bytes(out: &impl Print, bytes: &[u8]) -> io::Result<()> {
    if bytes.is_empty() {
        return Ok(());
    }
    println!(out; "{}", Hexadecimal(bytes))
}

// The figures of a hexadecimal number.
const FIGURES: [u8; 16] = *b"0123456789ABCDEF";

// The figure of the last four bits.
fn figure(bits: u8) -> u8 {
    FIGURES[usize::from(bits % 16)]
}

// Writes the line that shows some bytes, to an output that takes bytes. A byte is written at once with what stands
// behind it: to write its parts one by one takes three times as long.
pub fn write_bytes(out: &impl Print, bytes: &[u8]) -> io::Result<()> {
    for (place, byte) in bytes.iter().enumerate() {
        let behind = if place + 1 == bytes.len() {
            b'\n'
        } else {
            b' '
        };
        out.write_all(&[figure(*byte / 16), figure(*byte), behind])?;
    }
    Ok(())
}
