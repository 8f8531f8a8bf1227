// The report program: reads a study from standard input and prints its report.
#![tactic(auto)]

ghost use Rattle.std.specs.Prelude.{◌+◌, ◌≡◌, length};
ghost use Rattle.rules.specs.Limits.{longest_study};
ghost use Rattle.entries.specs.Entries.{class_places};
ghost use Rattle.report_text.specs.Report.{report_bytes};

use planning::{CLASS_PLACES, LONGEST_STUDY, REPORT_BYTES};

// The longest study and a byte more: what opening answers to so many bytes, it answers whatever follows them.
const INPUT_BYTES: usize = LONGEST_STUDY + 1;

fn empty_input() -> [u8; INPUT_BYTES]
    ensures { longest_study + 1 ≡ length result }
{
    [0; INPUT_BYTES]
}

// Room for any report, so that none is refused for want of it.
fn empty_text() -> [u8; REPORT_BYTES]
    ensures { report_bytes ≡ length result }
{
    [0; REPORT_BYTES]
}

// Places for the bounds of all classes, which the report fills; what they hold is in its lines too.
fn empty_bounds() -> [u64; CLASS_PLACES]
    ensures { class_places ≡ length result }
{
    [0; CLASS_PLACES]
}

// Over the kit's `io`, so that the program rests on `read` and `write` of the C library alone, where reading and
// printing by std rest on `errno` too. A report that can't be written is lost, and nobody is told.
fn main() {
    let mut input = empty_input();
    let got = io::read_full(0, &mut input);
    let mut out = empty_text();
    let mut lower = empty_bounds();
    let mut upper = empty_bounds();
    if let Ok(size) = planning::report(&input[..got], &mut out, &mut lower, &mut upper) {
        io::write_all(1, &out[..size as usize]);
    }
}
