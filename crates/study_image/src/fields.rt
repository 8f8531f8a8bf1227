// The fields of an image: numbers of four bytes, and rows of bytes.
ghost use Rattle.std.specs.Prelude.{◌+◌, ◌≤◌, ◌≡◌, length};
ghost use Rattle.study_image.specs.Places.{number_bytes};
ghost use Rattle.study_image.specs.Image.{number_in, bytes_in};

// The number of the four bytes at a place.
pub fn read_number(image: &[u8], at: usize) -> u32
    requires { at + number_bytes ≤ length image.now }
    ensures { result ≡ number_in image.now at }
{
    u32::from_le_bytes([image[at], image[at + 1], image[at + 2], image[at + 3]])
}

// The bytes of a row from a place on.
pub fn read_row<const N: usize>(image: &[u8], at: usize) -> [u8; N]
    requires { at + N ≤ length image.now }
    ensures { result ≡ bytes_in image.now at N }
{
    let mut row = [0; N];
    row.copy_from_slice(&image[at..at + N]);
    row
}
