// The lines of loads.
ghost use Rattle.std.specs.Prelude.{◌≤◌, ◌<◌};
ghost use Rattle.rules.specs.Limits.{most_loads};
ghost use Rattle.text.specs.Writer.{Room, Wrote};
ghost use Rattle.report_lines.specs.Loads.{load_line, load_lines};

use rules::LOAD_PLACES;
use text::Writer;

// Writes the line of load j, from tables by load.
#[tactic(auto, unfolding(crate::specs::Loads::load_line))]
fn load_line(out: &mut Writer, lower: &[u64; LOAD_PLACES], upper: &[u64; LOAD_PLACES], j: usize)
    requires j_lt_most_loads { j < most_loads }
    requires room { Room out.old (load_line lower.now upper.now j) }
    ensures { Wrote out.old (load_line lower.now upper.now j) out.new }
{
    out.item_line(b"L", j as u64, lower[j], upper[j]);
}

// Writes the lines of so many loads.
#[tactic(auto, using(text::proofs::Written::tables), unfolding(crate::specs::Loads::load_lines))]
pub fn load_lines(
    out: &mut Writer,
    lower: &[u64; LOAD_PLACES],
    upper: &[u64; LOAD_PLACES],
    loads: u8,
)
    requires loads_le_most_loads { loads ≤ most_loads }
    requires room { Room out.old (load_lines lower.now upper.now loads) }
    ensures { Wrote out.old (load_lines lower.now upper.now loads) out.new }
{
    for j in 0..usize::from(loads) {
        load_line(out, lower, upper, j);
    }
}
