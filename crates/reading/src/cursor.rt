// Reading bytes from left to right: a byte, a number of four bytes, and the map of a record.
ghost use Rattle.std.specs.Prelude.{◌≡◌, ◌<◌, IfOk};
ghost use Rattle.reading.specs.Fields.{map_byte};
ghost use Rattle.reading.specs.Reader.{read_by, read_of, byte_or, byte, word};

use rules::{Refusal, Row, stray_fault};

// The bytes that are still to come.
#[derive(Drop)]
pub struct Cursor<'a> {
    pub rest: &'a [u8],
}

impl<'a> Cursor<'a> {
    // The next byte; where none is left, a refusal by the row `end`.
    #[tactic(auto, unfolding(crate::specs::Reader::byte_or))]
    pub fn byte_or<E: Row>(&mut self, end: E) -> Result<u8, E>
        ensures { read_by E.row_number result self.new.rest.now ≡ byte_or (E.row_number end) self.old.rest.now }
    {
        match self.rest {
            [byte, rest @ ..] => {
                self.rest = rest;
                Ok(*byte)
            }
            [] => Err(end),
        }
    }

    // The next byte of a study.
    #[tactic(auto, unfolding(crate::specs::Reader::byte))]
    pub fn byte(&mut self) -> Result<u8, Refusal>
        ensures { read_of result self.new.rest.now ≡ byte self.old.rest.now }
    {
        self.byte_or(Refusal::Short)
    }

    // The number in the next four bytes, lowest byte first.
    #[tactic(auto, unfolding(crate::specs::Reader::word))]
    pub fn word(&mut self) -> Result<u32, Refusal>
        ensures { read_of result self.new.rest.now ≡ word self.old.rest.now }
    {
        let bytes = [self.byte()?, self.byte()?, self.byte()?, self.byte()?];
        Ok(u32::from_le_bytes(bytes))
    }

    // The map of a record, which has no stray bit.
    #[tactic(auto, unfolding(crate::specs::Fields::map_byte))]
    pub fn map(&mut self, maps: u8) -> Result<u8, Refusal>
        ensures reads { read_of result self.new.rest.now ≡ map_byte maps self.old.rest.now }
        ensures kept { IfOk result (λ map. map < maps) }
    {
        let map = self.byte()?;
        stray_fault(maps, map)?;
        Ok(map)
    }
}
