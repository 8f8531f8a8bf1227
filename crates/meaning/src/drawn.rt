// The classes that a drawn tree gives the joint states of a study.
ghost use Rattle.std.specs.Prelude.{◌≤◌, length};
ghost use Rattle.rules.specs.Limits.{most_joint_states};
ghost use Rattle.rules.specs.Refusals.{breach_of};
ghost use Rattle.soundness.specs.Sound.{Sound};
ghost use Rattle.meaning.specs.Meaning.{by_tree};
ghost use Rattle.meaning.specs.Sources.{ClassesPut};

use drawn_tree::draw_classes;
use entries::Class;
use rules::Refusal;
use study::{Study, joint_states, state_counts};

// Writes the classes at the front of a class table. Refused by 20, 21 or 22; then the table may hold anything.
pub fn put_drawn(t: &Study, tree: &[u8], classes: &mut [Class]) -> Result<(), Refusal>
    requires sound { Sound t.now }
    requires most_joint_states_in_bounds { most_joint_states ≤ length classes.old }
    ensures { ClassesPut (by_tree tree.now) t.now classes.old classes.new (breach_of result) }
{
    let all = state_counts(&t.component);
    let counts = &all[..t.components as usize];
    let joint = joint_states(counts) as usize;
    draw_classes(counts, t.loads, tree, &mut classes[..joint])
}
