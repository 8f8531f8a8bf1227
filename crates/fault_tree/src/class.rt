// The class of a joint state: bit j stands when load j is lost.
ghost use Rattle.std.specs.Prelude.{◌≤◌, ◌≡◌};
ghost use Rattle.rules.specs.Limits.{most_loads};
ghost use Rattle.fault_tree.specs.Classes.{lost as classes_lost, class_by, loads_lost};

use entries::{Class, class_ones};
use rules::{LOAD_PLACES, NEVER};
use study::Load;

#[tactic(auto, unfolding(crate::specs::Classes::lost))]
fn lost(truths: &[bool], l: &Load) -> bool
    ensures { result ≡ classes_lost truths.now l.now }
{
    if l.gate == NEVER {
        return false;
    }
    truths.get(l.gate as usize).copied().unwrap_or(false)
}

// The class of a joint state in which the gates have these truths.
pub fn class_by(truths: &[bool], load: &[Load; LOAD_PLACES], n: u8) -> Class
    requires { n ≤ most_loads }
    ensures { result ≡ class_by truths.now load.now n }
{
    let mut class = 0;
    for j in 0..n as usize {
        class |= (lost(truths, &load[j]) as Class) << j;
    }
    class
}

// How many loads are lost in a class.
#[tactic(auto, using(crate::proofs::OnesCounted::ones_lost))]
pub fn loads_lost(class: Class) -> u32
    ensures { result ≡ loads_lost class }
{
    class_ones(class)
}
