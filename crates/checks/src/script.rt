// The script, line by line: a line that starts with `#` is copied, an empty line is skipped, and any other is a
// command.
use crate::commands::obey;
use check_tools::hexadecimal::decode;
use check_tools::texts::show_text;
use std::io;
use study::{Study, zero_study};

// The most bytes that a command has.
const COMMAND_BYTES: usize = 4096;

// Copies a comment, or does what the line asks of the current study.
fn do_line(out: &impl Print, line: &[u8], study: &mut Study) -> io::Result<()> {
    match line {
        [] => Ok(()),
        [b'#', ..] => show_text(out, line),
        [letter, digits @ ..] => {
            let mut bytes = [0; COMMAND_BYTES];
            obey(out, *letter, decode(digits, &mut bytes), study)
        }
    }
}

// Does what each line asks. At the start the current study is one of zeros, as after a refused opening.
pub fn run(out: &impl Print, script: &[u8]) -> io::Result<()> {
    let mut study = zero_study();
    for line in script.split(|byte| *byte == b'\n') {
        do_line(out, line, &mut study)?;
    }
    Ok(())
}
