// The fields of a record. One that holds the value it has where a record leaves it out is not written.
ghost use Rattle.std.specs.Prelude.{◌+◌, ◌*◌, ◌≡◌};
ghost use Rattle.lists.specs.Counting.{truth};
ghost use Rattle.text.specs.Writer.{Room, Wrote};
ghost use Rattle.study_bytes.specs.Written.{byte_of, four_bytes_of, field};

use text::Writer;

// The map of up to four fields: bit k stands where field k is given.
#[tactic(auto, using(crate::proofs::Maps::bits))]
pub fn map_of(first: bool, second: bool, third: bool, fourth: bool) -> u8
    ensures { result ≡ truth first + 2 * (truth second + 2 * (truth third + 2 * truth fourth)) }
{
    u8::from(first) + 2 * u8::from(second) + 4 * u8::from(third) + 8 * u8::from(fourth)
}

// Writes the bytes of a field, where its value is given.
#[tactic(auto, using(crate::proofs::Parts::fields))]
fn write_field(out: &mut Writer, absent: u32, value: u32, bytes: &[u8])
    requires { Room out.old (field absent value bytes.now) }
    ensures { Wrote out.old (field absent value bytes.now) out.new }
{
    if value != absent {
        out.put(bytes);
    }
}

// Writes a field of one byte.
pub fn byte_field(out: &mut Writer, absent: u8, n: u8)
    requires { Room out.old (field absent n (byte_of n)) }
    ensures { Wrote out.old (field absent n (byte_of n)) out.new }
{
    write_field(out, u32::from(absent), u32::from(n), &[n]);
}

// Writes a field of four bytes, the lowest first.
pub fn number_field(out: &mut Writer, absent: u32, n: u32)
    requires { Room out.old (field absent n (four_bytes_of n)) }
    ensures { Wrote out.old (field absent n (four_bytes_of n)) out.new }
{
    write_field(out, absent, n, &n.to_le_bytes());
}
