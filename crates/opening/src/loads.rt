// The load records of a study.
ghost use Rattle.std.specs.Prelude.{◌≡◌, ◌≤◌};
ghost use Rattle.rules.specs.Limits.{most_loads};
ghost use Rattle.reading.specs.Reader.{read_into, repeat};
ghost use Rattle.opening.specs.Opening.{load_record, placing};

use load_record::read_load;
use reading::Cursor;
use rules::{LOAD_PLACES, Refusal};
use study::Load;

// So many load records of a study with so many gates, each in its place.
pub fn read_loads(
    bytes: &mut Cursor,
    gates: u8,
    n: u8,
    load: &mut [Load; LOAD_PLACES],
) -> Result<(), Refusal>
    requires { n ≤ most_loads }
    ensures { read_into result load.new bytes.new.rest.now ≡ repeat (placing (load_record gates)) n load.old bytes.old.rest.now }
{
    for j in 0..usize::from(n) {
        load[j] = read_load(bytes, gates)?;
    }
    Ok(())
}
