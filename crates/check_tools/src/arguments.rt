// The bytes of a command, read from left to right. A byte that is missing counts as 0.
ghost use Rattle.std.specs.Prelude.{◌≡◌, ◌+◌, ◌*◌, ◌≤◌, length, slice_index, drop};
ghost use Rattle.entries.specs.Entries.{class_bytes, class_read};

use entries::{Class, class_or};
use reading::Cursor;
use rules::Refusal;

// The bytes that are still to come.
#[derive(Clone, Copy)]
pub struct Arguments<'a> {
    pub rest: &'a [u8],
}

impl<'a> Arguments<'a> {
    pub fn byte(&mut self) -> u8
        ensures value { result ≡ slice_index self.old.rest.now 0 }
        ensures rest { self.new.rest.now ≡ drop 1 self.old.rest.now }
    {
        match self.rest {
            [byte, rest @ ..] => {
                self.rest = rest;
                *byte
            }
            [] => 0,
        }
    }

    // A number of two bytes, lowest byte first.
    pub fn short(&mut self) -> u16
        ensures value { result ≡ slice_index self.old.rest.now 0 + 256 * slice_index self.old.rest.now 1 }
        ensures rest { self.new.rest.now ≡ drop 2 self.old.rest.now }
    {
        u16::from_le_bytes([self.byte(), self.byte()])
    }

    // A number of four bytes, lowest byte first.
    pub fn word(&mut self) -> u32
        ensures value { result ≡ slice_index self.old.rest.now 0 + 256 * slice_index self.old.rest.now 1
            + 65536 * slice_index self.old.rest.now 2 + 16777216 * slice_index self.old.rest.now 3 }
        ensures rest { self.new.rest.now ≡ drop 4 self.old.rest.now }
    {
        u32::from_le_bytes([self.byte(), self.byte(), self.byte(), self.byte()])
    }

    // The class in them, and 0 where it is not all there.
    #[tactic(auto, unfolding(entries::specs::ClassReader::class_or))]
    pub fn class(&self) -> Class
        ensures { class_bytes ≤ length self.now.rest.now → result ≡ class_read self.now.rest.now }
    {
        let mut bytes = Cursor { rest: self.rest };
        class_or(&mut bytes, Refusal::Short).unwrap_or(0)
    }
}
