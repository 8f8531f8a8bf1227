// Shows what a call that fills lent bytes answers, and what the bytes then hold.
use crate::numbers::Counted;
use rules::Refusal;
use std::io;

// How many of the bytes hold a value, and how many do not, on a line.
fn show_held(out: &impl Print, bytes: &[u8], value: u8) -> io::Result<()> {
    // No more than there are bytes, so that nothing wraps. A sum is added up many bytes at a time, a count one by one.
    let held = bytes.iter().fold(0usize, |held, byte| {
        held.wrapping_add(usize::from(*byte == value))
    });
    println!(out; "{held} {}", bytes.len().wrapping_sub(held))
}

// Shows the refusal, 0 for none, and the count on a line; then what was written, each of so many bytes, as it is shown;
// and how many of the bytes behind it hold what all bytes held.
pub fn show_written<F: FnOnce(&[u8]) -> io::Result<()>>(
    out: &impl Print,
    answer: Result<u32, Refusal>,
    width: u16,
    lent: &[u8],
    fill: u8,
    show: F,
) -> io::Result<()>
    requires { F.IsAlwaysCallable show }
{
    println!(out; "{}", Counted(answer))?;
    let size = answer.unwrap_or(0) as usize * usize::from(width);
    let (front, behind) = lent.split_at(size.min(lent.len()));
    show(front)?;
    show_held(out, behind, fill)
}

// Shows a text on a line.
pub fn show_text(out: &impl Print, text: &[u8]) -> io::Result<()> {
    out.write_all(text)?;
    println!(out; "")
}
