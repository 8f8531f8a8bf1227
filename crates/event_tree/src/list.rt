// The list of the paths of a block.
ghost use Rattle.std.specs.Prelude.{◌+◌, ◌≤◌, ◌≡◌, length, take};
ghost use Rattle.lists.specs.Rows.{put, joined};
ghost use Rattle.rules.specs.Limits.{most_components};
ghost use Rattle.event_tree.specs.Entries.{entries_behind};
ghost use Rattle.paths.specs.Paths.{paths};

use crate::block::ClassBlock;
use crate::marks::no_marks;
use entries::write_entry;

// Writes the paths of a block from a place on, each behind the marks of the components in front, and answers the place
// behind them. The marks behind those in front are written over.
fn list_block(block: ClassBlock, marks: &mut [u8], front: usize, out: &mut [u8], at: usize) -> usize
    requires counts_in_bounds { front + length block.counts.now ≤ length marks.old }
    requires block_in_bounds { at
        + length (entries_behind (take front marks.old) (paths block.counts.now block.classes.now))
        ≤ length out.old }
    ensures value { result
        ≡ at + length (entries_behind (take front marks.old) (paths block.entry.counts.now block.entry.classes.now)) }
    ensures out_after { out.new ≡ put out.old at
        (entries_behind (take front marks.old) (paths block.entry.counts.now block.entry.classes.now)) }
    ensures marks_unchanged { take front marks.new ≡ take front marks.old }
{
    let Some(fork) = block.fork() else {
        return write_entry(&marks[..front], block.class(), out, at);
    };
    let mut place = at;
    for s in 0..fork.ways.number() {
        marks[front] = fork.ways.mark(s);
        place = list_block(fork.part(s), marks, front + 1, out, place);
    }
    place
}

// Writes the list of the paths of a block at the front of a buffer.
pub fn list_paths(block: ClassBlock, out: &mut [u8])
    requires counts_len_bound { length block.counts.now ≤ most_components }
    requires block_in_bounds { length (joined (paths block.counts.now block.classes.now)) ≤ length out.old }
    ensures { out.new ≡ put out.old 0 (joined (paths block.entry.counts.now block.entry.classes.now)) }
{
    let mut marks = no_marks();
    list_block(block, &mut marks, 0, out, 0);
}
