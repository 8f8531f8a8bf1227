// The standard output, over the kit's `io`: so the program rests on `read` and `write` of the C library alone, where
// the standard output of std rests on `errno` too.
use std::fmt;
use std::fmt::{Display, Write};

// A piece that can't be written is lost, and what stands behind it is tried all the same.
#[derive(Clone, Copy)]
pub struct Output;

impl fmt::Write for Output {
    fn write_str(&mut self, text: &str) -> fmt::Result {
        io::write_all(1, text.as_bytes());
        Ok(())
    }
}

impl Print for Output {
    fn print<D: Display + Drop>(&self, value: D) -> std::io::Result<()> {
        let mut out = Output;
        let _ = write!(out, "{value}");
        Ok(())
    }

    fn println<D: Display + Drop>(&self, value: D) -> std::io::Result<()> {
        let mut out = Output;
        let _ = writeln!(out, "{value}");
        Ok(())
    }

    fn write_all(&self, bytes: &[u8]) -> std::io::Result<()> {
        io::write_all(1, bytes);
        Ok(())
    }
}
