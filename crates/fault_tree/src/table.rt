// The classes of all joint states, into a lent class table.
ghost use Rattle.std.specs.Prelude.{◌≤◌, ◌≡◌, length};
ghost use Rattle.lists.specs.Rows.{put};
ghost use Rattle.rules.specs.Limits.{most_joint_states};
ghost use Rattle.soundness.specs.Sound.{Sound};
ghost use Rattle.fault_tree.specs.Classes.{classes};
ghost use Rattle.fault_tree.specs.Readable.{TableBegins};

use crate::class::class_by;
use crate::gates::distinct_gates;
use crate::truth::gate_true;
use entries::{Class, set_class};
use joint_states::next_joint_state;
use rules::{COMPONENT_PLACES, GATE_PLACES};
use study::{Study, joint_states, state_counts};

// Fills the front of a class table for a sound study with these state counts, by joint state number; x is the joint
// state in which all are up, and is moved on from there.
fn fill_table(t: &Study, counts: &[u8], x: &mut [u8], table: &mut [Class])
    requires table_begins { TableBegins t.now counts.now x.old }
    requires most_joint_states_in_bounds { most_joint_states ≤ length table.old }
    ensures { table.new ≡ put table.old 0 (classes t.now) }
{
    let once = distinct_gates(&t.gate, t.gates as usize);
    for k in 0..joint_states(counts) as usize {
        let mut truths = [false; GATE_PLACES];
        for i in 0..t.gates as usize {
            truths[i] = gate_true(&once[i], x, &truths);
        }
        set_class(table, k, class_by(&truths, &t.load, t.loads));
        next_joint_state(counts, x);
    }
}

// Writes the classes of all joint states of a sound study at the front of a class table.
pub fn put_classes(t: &Study, table: &mut [Class])
    requires sound { Sound t.now }
    requires most_joint_states_in_bounds { most_joint_states ≤ length table.old }
    ensures { table.new ≡ put table.old 0 (classes t.now) }
{
    let n = t.components as usize;
    let all = state_counts(&t.component);
    let mut x = [0; COMPONENT_PLACES];
    fill_table(t, &all[..n], &mut x[..n], table);
}
