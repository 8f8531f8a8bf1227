// One class at all joint states of a branch.
ghost use Rattle.std.specs.Prelude.{◌≤◌, ◌≡◌, length};
ghost use Rattle.paths.specs.Blocks.{Block};
ghost use Rattle.drawn_tree.specs.Filling.{branch_filled};

use entries::{BLANK, Class};

// Writes a class at every joint state that fits the marks, in a block of the classes of these components. Settled marks
// lead straight to the part of their states; at the first that is blank, each of its states has a part.
pub fn fill_branch(counts: &[u8], marks: &[u8], class: Class, block: &mut [Class])
    requires block { Block counts.now block.old }
    requires counts_in_bounds { length counts.now ≤ length marks.now }
    ensures { block.new ≡ branch_filled counts.now marks.now class block.old }
{
    let (mut counts, mut marks) = (counts, marks);
    let (mut from, mut size) = (0, block.len());
    while let [states, ..] = counts {
        let mark = marks[0];
        size /= *states as usize;
        if mark == BLANK {
            for s in 0..*states {
                let at = from + s as usize * size;
                fill_branch(&counts[1..], &marks[1..], class, &mut block[at..at + size]);
            }
            return;
        }
        if *states <= mark {
            return;
        }
        from += mark as usize * size;
        (counts, marks) = (&counts[1..], &marks[1..]);
    }
    block[from] = class;
}
