// Bytes written one behind the other into a lent buffer.
ghost use Rattle.std.specs.Prelude.{◌≡◌};
ghost use Rattle.text.specs.Writer.{Room, Wrote};

// A lent buffer and the place up to which it is written. Who writes has the room.
#[derive(Drop)]
pub struct Writer<'a> {
    buffer: &'a mut [u8],
    size: usize,
}

impl<'a> Writer<'a> {
    // Nothing is written yet.
    #[inline]
    pub fn new(buffer: &'a mut [u8]) -> Writer<'a>
        ensures same_buffer { result.buffer.ghost_name ≡ buffer.entry.ghost_name }
        ensures bytes { result.buffer.now ≡ buffer.old }
        ensures none { result.size ≡ 0 }
    {
        Writer { buffer, size: 0 }
    }

    // How many bytes are written.
    #[inline]
    pub fn size(&self) -> usize
        ensures { result ≡ self.now.size }
    {
        self.size
    }

    // Writes all of some bytes.
    #[inline]
    pub fn put(&mut self, bytes: &[u8])
        requires { Room self.old bytes.now }
        ensures { Wrote self.old bytes.now self.new }
    {
        let Writer { buffer, size } = self;
        let end = *size + bytes.len();
        buffer[*size..end].copy_from_slice(bytes);
        *size = end;
    }
}
