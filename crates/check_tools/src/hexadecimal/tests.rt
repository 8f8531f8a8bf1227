// Bytes are shown as one line of text, to an output that takes nothing else.
use super::show_bytes;
use std::fmt::{Display, Write};
use std::{fmt, io};

// The text that is still to come: any other is an error.
#[derive(Drop)]
struct Awaited<'a>(&'a str);

impl fmt::Write for Awaited<'_> {
    fn write_str(&mut self, text: &str) -> fmt::Result {
        self.0 = self.0.strip_prefix(text).ok_or(fmt::Error)?;
        Ok(())
    }
}

// An output that takes this line alone, and no bytes.
struct Line<'a>(&'a str);

impl Print for Line<'_> {
    fn print<D: Display + Drop>(&self, _value: D) -> io::Result<()> {
        Err(io::ErrorKind::Unsupported.into())
    }

    fn println<D: Display + Drop>(&self, value: D) -> io::Result<()> {
        let mut awaited = Awaited(self.0);
        if write!(awaited, "{value}").is_ok() && awaited.0.is_empty() {
            Ok(())
        } else {
            Err(io::ErrorKind::InvalidData.into())
        }
    }

    fn write_all(&self, _bytes: &[u8]) -> io::Result<()> {
        Err(io::ErrorKind::Unsupported.into())
    }
}

#[test]
fn bytes_are_a_line_of_text() -> io::Result<()> {
    show_bytes(&Line("01 AB F0"), &[1, 171, 240])?;
    show_bytes(&Line("00"), &[0])
}

#[test]
fn no_bytes_are_no_line() -> io::Result<()> {
    show_bytes(&Line("00"), &[])
}

#[test]
fn an_output_that_refuses_is_heard() -> io::Result<()> {
    match show_bytes(&Line("01 AB"), &[1, 172]) {
        Ok(()) => Err(io::ErrorKind::Other.into()),
        Err(_) => Ok(()),
    }
}
