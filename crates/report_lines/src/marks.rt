// What stands for the components of a path.
ghost use Rattle.std.specs.Prelude.{◌≤◌, ◌≡◌, length};
ghost use Rattle.text.specs.Writer.{Room, Wrote};
ghost use Rattle.report_lines.specs.Paths.{mark_byte, mark_bytes};

use rules::STATE_PLACES;
use text::{Writer, ZERO};

// What stands for a blank component.
const DASH: u8 = b'-';

// The digit of a state, or the dash.
fn mark_byte(mark: u8) -> u8
    ensures { result ≡ mark_byte mark }
{
    if usize::from(mark) < STATE_PLACES {
        return ZERO + mark;
    }
    DASH
}

// Writes the first n marks of an entry.
#[tactic(auto, using(crate::proofs::Marked::mark_tables))]
pub fn mark_bytes(out: &mut Writer, n: usize, entry: &[u8])
    requires n_in_bounds { n ≤ length entry.now }
    requires room { Room out.old (mark_bytes n entry.now) }
    ensures { Wrote out.old (mark_bytes n entry.now) out.new }
{
    for mark in &entry[..n] {
        out.put(&[mark_byte(*mark)]);
    }
}
