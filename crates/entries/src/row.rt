// Classes in a row, one for each joint state: compared, taken from a place on, and put at a place. Elsewhere rows of
// classes are handed on.
ghost use Rattle.std.specs.Prelude.{◌+◌, ◌<◌, ◌≤◌, ◌≡◌, length, take, drop, set};
ghost use Rattle.lists.specs.Rows.{same};

use crate::class::Class;

// Whether two rows have the same classes. Every place is compared, whatever was found before it.
pub fn same_classes(a: &[Class], b: &[Class]) -> bool
    requires { length a.now ≡ length b.now }
    ensures { result ≡ same a.now b.now }
{
    let mut alike = true;
    for i in 0..a.len() {
        alike = alike & (a[i] == b[i]);
    }
    alike
}

// So many classes of a row, from a place on.
pub fn classes_from(row: &[Class], from: usize, size: usize) -> &[Class]
    requires { from + size ≤ length row.now }
    ensures { result.now ≡ take size (drop from row.now) }
{
    &row[from..from + size]
}

// Puts a class at a place of a row.
pub fn set_class(row: &mut [Class], at: usize, class: Class)
    requires { at < length row.old }
    ensures { row.new ≡ set row.old at class }
{
    row[at] = class;
}
