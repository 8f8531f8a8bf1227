// The first component of a block, where paths go on, and the part of the block that each of its ways leads to.
ghost use Rattle.std.specs.Prelude.{◌<◌, length};
ghost use Rattle.event_tree.specs.Ways.{WaysAt};

use crate::blank::Ways;
use crate::block::ClassBlock;
use entries::classes_from;

// A block with its first component: the ways on there, and how many classes each leads to.
#[derive(Clone, Copy)]
pub struct Fork<'a> {
    pub block: ClassBlock<'a>,
    pub ways: Ways,
    pub size: usize,
    pub ghost some: { 0 < length block.counts.now },
    pub ghost at: { WaysAt block.counts.now block.classes.now ways size },
}

impl<'a> Fork<'a> {
    ghost use Rattle.std.specs.Prelude.{◌≡◌, drop};
    ghost use Rattle.paths.specs.Paths.{part as paths_part};
    ghost use Rattle.event_tree.specs.Ways.{number_in};

    // The block of the later components that way s leads to.
    #[inline]
    pub fn part(self, s: u8) -> ClassBlock<'a>
        requires { s < number_in self.ways }
        ensures counts { result.counts.now ≡ drop 1 self.entry.block.counts.now }
        ensures classes { result.classes.now ≡ paths_part self.entry.size s self.entry.block.classes.now }
    {
        ClassBlock {
            counts: &self.block.counts[1..],
            classes: classes_from(self.block.classes, s as usize * self.size, self.size),
        }
    }
}
