// How many paths a block has.
ghost use Rattle.std.specs.Prelude.{◌≤◌, ◌≡◌, length};
ghost use Rattle.rules.specs.Limits.{most_joint_states};
ghost use Rattle.paths.specs.Paths.{paths};

use crate::block::ClassBlock;
use answers::PathCount;

// The number of paths of a block, before any of them is written.
pub fn count_paths(block: ClassBlock) -> PathCount
    requires { length block.classes.now ≤ most_joint_states }
    ensures { result.paths ≡ length (paths block.entry.counts.now block.entry.classes.now) }
{
    let Some(fork) = block.fork() else {
        return PathCount { paths: 1 };
    };
    let mut paths = 0;
    for s in 0..fork.ways.number() {
        paths += count_paths(fork.part(s)).paths;
    }
    PathCount { paths }
}
