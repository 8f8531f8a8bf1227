// The classes that a drawn tree gives all joint states.
ghost use Rattle.std.specs.Prelude.{◌≤◌, ◌≡◌, length, IfOk};
ghost use Rattle.paths.specs.Blocks.{Block};
ghost use Rattle.rules.specs.Limits.{most_components, most_loads};
ghost use Rattle.rules.specs.Refusals.{breach_of};
ghost use Rattle.drawn_tree.specs.Drawn.{drawn_fault, drawn_classes};

use crate::tree::draw_tree;
use entries::{BLANK, Class};
use reading::Cursor;
use rules::{COMPONENT_PLACES, Refusal, behind_fault};

// The classes of all joint states of components with these state counts, into a block with a place for each. Refused
// by 20, 21 or 22; then the block may hold anything.
pub fn draw_classes(
    counts: &[u8],
    loads: u8,
    bytes: &[u8],
    block: &mut [Class],
) -> Result<(), Refusal>
    requires block { Block counts.now block.old }
    requires counts_len_bound { length counts.now ≤ most_components }
    requires loads_le_most_loads { loads ≤ most_loads }
    ensures fault { breach_of result ≡ drawn_fault counts.now loads bytes.now }
    ensures classes { IfOk result (λ u. block.new ≡ drawn_classes counts.now loads bytes.now) }
{
    let mut cursor = Cursor { rest: bytes };
    let mut marks = [BLANK; COMPONENT_PLACES];
    let drawn = draw_tree(counts, loads, &mut cursor, &mut marks, block);
    let Cursor { rest } = cursor;
    drawn?;
    behind_fault(rest.len())
}
