// Reading a record: its map, then the fields whose bit stands, lowest bit first.
ghost use Rattle.std.specs.Prelude.{◌≡◌, ℕ, ◌+◌, ◌^◌, ◌<◌, ◌≤◌};
ghost use Rattle.reading.specs.Fields.{map_bits, field_at, where_left, fields, fields_by_map};
ghost use Rattle.reading.specs.Reader.{Reader, read_of, read_into};

use crate::cursor::Cursor;
use crate::fields::{field_count, fields_behind, map_digit};
use rules::Refusal;

// How the records of a kind are read: their fields, one for each bit of a map up to the last.
pub trait Fields {
    type Record: Copy;

    ghost maps: { ℕ };

    ghost last: { ℕ };

    ghost absent: { Self → Self.Record };

    ghost field: { Self → ℕ → Self.Record → Reader Self.Record };

    // One above the largest map.
    fn maps(&self) -> u8
        ensures { result ≡ maps };

    // The bit of the last field.
    fn last(&self) -> u8
        ensures { result ≡ last };

    // A record that gives no field.
    fn absent(&self) -> Self::Record
        ensures { result ≡ absent self.now };

    // The field of bit k.
    fn read_field(
        &self,
        bytes: &mut Cursor,
        k: u8,
        so_far: &mut Self::Record,
    ) -> Result<(), Refusal>
        requires { k ≤ last }
        ensures { read_into result so_far.new bytes.new.rest.now ≡ field self.now k so_far.old bytes.old.rest.now };

    // The last field has a bit, and no bit stands behind it.
    ghost fit: { last < map_bits };

    ghost all: { maps ≡ 2 ^ (last + 1) };
}

// The field of bit k, where the bit stands in the map.
fn read_where_set<F: Fields>(
    bytes: &mut Cursor,
    of: &F,
    map: u8,
    k: u8,
    so_far: &mut F::Record,
) -> Result<(), Refusal>
    requires { k < F.last }
    ensures { read_into result so_far.new bytes.new.rest.now ≡ field_at (F.field of.now) map k so_far.old bytes.old.rest.now }
{
    if map_digit(map, k) != 1 {
        return Ok(());
    }
    of.read_field(bytes, k, so_far)
}

// The last field, where one field is left to read.
fn read_last<F: Fields>(
    bytes: &mut Cursor,
    of: &F,
    left: u32,
    so_far: &mut F::Record,
) -> Result<(), Refusal>
    ensures { read_into result so_far.new bytes.new.rest.now ≡ where_left left (F.field of.now F.last) so_far.old bytes.old.rest.now }
{
    if left != 1 {
        return Ok(());
    }
    of.read_field(bytes, of.last(), so_far)
}

// The fields whose bit stands in the map, lowest bit first: as many as the map has ones.
fn read_fields<F: Fields>(
    bytes: &mut Cursor,
    of: &F,
    map: u8,
    so_far: &mut F::Record,
) -> Result<(), Refusal>
    requires { map < F.maps }
    ensures { read_into result so_far.new bytes.new.rest.now ≡ fields (F.field of.now) map so_far.old bytes.old.rest.now }
{
    let mut left = field_count(map);
    for k in 0..of.last() {
        read_where_set(bytes, of, map, k, so_far)?;
        left = fields_behind(left, map, k);
    }
    read_last(bytes, of, left, so_far)
}

// One record, in its place: its map, then its fields over their absent values. A long record that is handed on by value
// is copied right behind the writing of its bytes, which stalls the processor.
pub fn fill_record<F: Fields>(
    bytes: &mut Cursor,
    of: &F,
    place: &mut F::Record,
) -> Result<(), Refusal>
    ensures { read_into result place.new bytes.new.rest.now
        ≡ fields_by_map F.maps (F.field of.now) (F.absent of.now) bytes.old.rest.now }
{
    let map = bytes.map(of.maps())?;
    *place = of.absent();
    read_fields(bytes, of, map, place)
}

// One record.
pub fn read_record<F: Fields>(bytes: &mut Cursor, of: &F) -> Result<F::Record, Refusal>
    ensures { read_of result bytes.new.rest.now ≡ fields_by_map F.maps (F.field of.now) (F.absent of.now) bytes.old.rest.now }
{
    let mut read = of.absent();
    fill_record(bytes, of, &mut read)?;
    Ok(read)
}
