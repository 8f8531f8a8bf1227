// Bytes from one place to another.
ghost use Rattle.text.specs.Writing.{Room, Wrote};

// Writes all of some bytes.
pub fn copy(out: &mut [u8], at: usize, bytes: &[u8]) -> usize
    requires { Room out.old at bytes.now }
    ensures { Wrote out.old at bytes.now out.new result }
{
    let end = at + bytes.len();
    out[at..end].copy_from_slice(bytes);
    end
}
