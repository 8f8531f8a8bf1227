// Reads a drawn tree, and fills the class table while it goes.
ghost use Rattle.std.specs.Prelude.{◌≤◌, ◌≡◌, length, IfOk};
ghost use Rattle.paths.specs.Blocks.{Block};
ghost use Rattle.rules.specs.Limits.{most_components, most_loads};
ghost use Rattle.drawn_tree.specs.Filling.{leaf_drawn, branch_drawn, filled_of};
ghost use Rattle.drawn_tree.specs.Reading.{asked as reading_asked};

use crate::branch::fill_branch;
use entries::{BLANK, Class, class_or};
use reading::Cursor;
use rules::{COMPONENT_PLACES, Refusal, leaf_fault, node_fault};

// What stands in place of a component at a leaf.
const LEAF: u8 = 255;

// Whether a component is asked above, on a branch with these marks.
fn asked(marks: &[u8], c: u8) -> bool
    ensures { result ≡ reading_asked marks.now c }
{
    match marks.get(usize::from(c)) {
        Some(mark) => *mark != BLANK,
        None => true,
    }
}

// The class of a leaf, at all joint states of its branch.
#[tactic(auto, unfolding(crate::specs::Filling::leaf_drawn))]
fn draw_leaf(
    counts: &[u8],
    loads: u8,
    bytes: &mut Cursor,
    marks: &[u8],
    table: &mut [Class],
) -> Result<(), Refusal>
    requires block { Block counts.now table.old }
    requires marked { length counts.now ≤ length marks.now }
    requires loads_le_most_loads { loads ≤ most_loads }
    ensures { filled_of result table.new bytes.new.rest.now
        ≡ leaf_drawn counts.now loads marks.now table.old bytes.old.rest.now }
{
    let class = class_or(bytes, Refusal::BadEnd)?;
    leaf_fault(loads, u32::from(class))?;
    fill_branch(counts, marks, class, table);
    Ok(())
}

// The next tree, below a branch with these marks. Where it is read to its end, the marks are as they were.
pub fn draw_tree(
    counts: &[u8],
    loads: u8,
    bytes: &mut Cursor,
    marks: &mut [u8; COMPONENT_PLACES],
    table: &mut [Class],
) -> Result<(), Refusal>
    requires block { Block counts.now table.old }
    requires counts_len_bound { length counts.now ≤ most_components }
    requires loads_le_most_loads { loads ≤ most_loads }
    ensures read { filled_of result table.new bytes.new.rest.now
        ≡ branch_drawn counts.now loads marks.old table.old bytes.old.rest.now }
    ensures marks { IfOk result (λ u. marks.new ≡ marks.old) }
{
    let first = bytes.byte_or(Refusal::BadEnd)?;
    if first == LEAF {
        return draw_leaf(counts, loads, bytes, marks, table);
    }
    node_fault(counts.len(), first, asked(marks, first))?;
    let c = first as usize;
    for s in 0..counts[c] {
        marks[c] = s;
        draw_tree(counts, loads, bytes, marks, table)?;
    }
    marks[c] = BLANK;
    Ok(())
}
