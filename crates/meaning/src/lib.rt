// What a call on a study is about: its own gates, or a tree that is drawn beside it. The class table is filled from
// either here, and nothing behind the table knows from which. Not for callers from outside: those call `planning`.
#![tactic(auto)]

mod drawn;

ghost use Rattle.std.specs.Prelude.{◌≤◌, length};
ghost use Rattle.lists.specs.Cleared.{Cleared};
ghost use Rattle.rules.specs.Limits.{most_joint_states};
ghost use Rattle.rules.specs.Refusals.{breach_of};
ghost use Rattle.soundness.specs.Sound.{Sound};
ghost use Rattle.meaning.specs.Sources.{meaning_of, ClassesPut, Judged};

use drawn::put_drawn;
use entries::Class;
use rules::{JOINT_STATE_PLACES, Refusal, unsound_fault};
use soundness::is_sound;
use study::Study;

// Where the classes of a call come from: the gates of its study, or the bytes of a tree that is drawn beside it.
#[derive(Clone, Copy)]
pub enum Source<'a> {
    Gates,
    Tree(&'a [u8]),
}

// A class table with every place cleared.
pub fn no_classes() -> [Class; JOINT_STATE_PLACES]
    ensures { Cleared most_joint_states result }
{
    [0; JOINT_STATE_PLACES]
}

// Writes the classes of all joint states of a sound study at the front of a class table. Refused by 20, 21 or 22 where
// its tree breaks a rule; then the table may hold anything.
pub fn put_classes(source: Source, t: &Study, classes: &mut [Class]) -> Result<(), Refusal>
    requires sound { Sound t.now }
    requires most_joint_states_in_bounds { most_joint_states ≤ length classes.old }
    ensures { ClassesPut (meaning_of source.entry) t.now classes.old classes.new (breach_of result) }
{
    match source {
        Source::Gates => {
            fault_tree::put_classes(t, classes);
            Ok(())
        }
        Source::Tree(tree) => put_drawn(t, tree, classes),
    }
}

// The same of any study. Refused by 16, then 20, 21 or 22.
pub fn judged_classes(source: Source, study: &Study, classes: &mut [Class]) -> Result<(), Refusal>
    requires { most_joint_states ≤ length classes.old }
    ensures { Judged (meaning_of source.entry) study.now classes.old classes.new (breach_of result) }
{
    unsound_fault(is_sound(study))?;
    put_classes(source, study, classes)
}
