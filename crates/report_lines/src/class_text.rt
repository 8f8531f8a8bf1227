// The lines of classes.
ghost use Rattle.std.specs.Prelude.{◌≤◌, length};
ghost use Rattle.text.specs.Writer.{Room, Wrote};
ghost use Rattle.entries.specs.Entries.{class_places};
ghost use Rattle.report_lines.specs.Classes.{class_line, class_lines};

use entries::Class;
use text::Writer;

// Writes the line of a class, from tables by class.
#[tactic(auto, unfolding(crate::specs::Classes::class_line))]
fn class_line(out: &mut Writer, class: Class, lower: &[u64], upper: &[u64])
    requires class_places_in_bounds { class_places ≤ length lower.now }
    requires class_places_in_bounds_2 { class_places ≤ length upper.now }
    requires room { Room out.old (class_line lower.now upper.now class) }
    ensures { Wrote out.old (class_line lower.now upper.now class) out.new }
{
    let place = usize::from(class);
    out.item_line(b"K", u64::from(class), lower[place], upper[place]);
}

// Writes the lines of these classes, from tables by class.
#[tactic(auto, using(crate::proofs::Listed::class_tables))]
pub fn class_lines(out: &mut Writer, classes: &[Class], lower: &[u64], upper: &[u64])
    requires class_places_in_bounds { class_places ≤ length lower.now }
    requires class_places_in_bounds_2 { class_places ≤ length upper.now }
    requires room { Room out.old (class_lines classes.now lower.now upper.now) }
    ensures { Wrote out.old (class_lines classes.now lower.now upper.now) out.new }
{
    for class in classes {
        class_line(out, *class, lower, upper);
    }
}
