// What one class comes to over the paths of a list: a pass over the list, and no places for the other classes.
ghost use Rattle.std.specs.Prelude.{◌+◌, ◌*◌, ◌≤◌, ◌<◌, ◌≡◌, min};
ghost use Rattle.units.specs.One.{one};
ghost use Rattle.rules.specs.Limits.{most_joint_states};
ghost use Rattle.entries.specs.Entries.{entries_of};
ghost use Rattle.probability.specs.ClassTotal.{TotalOf};

use crate::listed::ListedPaths;
use crate::sums::sum_at_most;
use entries::Class;
use units::{DOWN, ONE, UP};

// How many paths bear a class, and its bounds.
#[derive(Clone, Copy, Default)]
pub struct ClassTotal {
    pub paths: u32,
    pub lower: u64,
    pub upper: u64,
}

impl ClassTotal {
    // One path more, with these bounds.
    fn add(&mut self, lower: u64, upper: u64)
        requires paths_few { self.old.paths < most_joint_states }
        requires lower_most { self.old.lower ≤ most_joint_states * one }
        requires upper_most { self.old.upper ≤ one }
        requires lower_le_one { lower ≤ one }
        requires upper_le_one { upper ≤ one }
        ensures one_more { self.new.paths ≡ self.old.paths + 1 }
        ensures lower_added { self.new.lower ≡ self.old.lower + lower }
        ensures upper_added { self.new.upper ≡ min one (self.old.upper + upper) }
    {
        self.paths += 1;
        self.lower += lower;
        self.upper = sum_at_most(u64::from(ONE), self.upper, upper);
    }
}

impl ListedPaths<'_> {
    // What a class comes to over the paths.
    pub fn class_total(&self, class: Class) -> ClassTotal
        ensures { TotalOf self.now.probabilities.now self.now.components class
            (entries_of self.now.components self.now.paths self.now.list.now) result }
    {
        let mut total = ClassTotal::default();
        for k in 0..self.paths {
            if self.class_at(k) == class {
                total.add(self.bound_at(DOWN, k), self.bound_at(UP, k));
            }
        }
        total
    }
}
