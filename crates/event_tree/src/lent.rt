// The list of the paths of a block in a lent buffer.
ghost use Rattle.std.specs.Prelude.{◌≡◌};
ghost use Rattle.paths.specs.Paths.{paths};
ghost use Rattle.paths.specs.Blocks.{Listable};
ghost use Rattle.answers.specs.Answers.{by_number};
ghost use Rattle.event_tree.specs.Lent.{listed_in, buffer_in};

use crate::block::ClassBlock;
use crate::count::count_paths;
use crate::list::list_paths;
use answers::PathCount;
use entries::list_need;
use rules::{Refusal, room_fault};

// Writes the list of the paths of a block at the front of a lent buffer, and answers what was counted of it. Refused by
// 18.
pub fn list_lent(block: ClassBlock, buffer: &mut [u8]) -> Result<PathCount, Refusal>
    requires { Listable block.counts.now block.classes.now }
    ensures answer { by_number result
        ≡ listed_in (paths block.entry.counts.now block.entry.classes.now) buffer.old }
    ensures buffer { buffer.new ≡ buffer_in (paths block.entry.counts.now block.entry.classes.now) buffer.old }
{
    let count = count_paths(block);
    room_fault(list_need(block.counts.len(), count.paths), buffer.len())?;
    list_paths(block, buffer);
    Ok(count)
}
