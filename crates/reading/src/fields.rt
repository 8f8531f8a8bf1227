// The bits of a record's map: which fields it has, and how many are left to read.
ghost use Rattle.std.specs.Prelude.{◌≡◌, ◌-◌, ◌<◌};
ghost use Rattle.std.specs.Int.Count.{ones};
ghost use Rattle.lists.specs.Bits.{digit};
ghost use Rattle.reading.specs.Fields.{map_bits, BitLeft};

// How many bits of a map stand: the number of fields in its record.
pub fn field_count(map: u8) -> u32
    ensures { result ≡ ones map }
{
    map.count_ones()
}

// Bit k of a map, as 0 or 1.
pub fn map_digit(map: u8, k: u8) -> u8
    requires { k < map_bits }
    ensures { result ≡ digit map k }
{
    (map >> k) % 2
}

// How many fields are left behind bit k, where so many are left from bit k on.
pub fn fields_behind(left: u32, map: u8, k: u8) -> u32
    requires { BitLeft map left k }
    ensures { result ≡ left - digit map k }
{
    left - map_digit(map, k) as u32
}
