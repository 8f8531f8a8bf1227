// The sum that totals are made of.
ghost use Rattle.std.specs.Prelude.{◌+◌, ◌*◌, ◌≤◌, min, ◌≡◌};
ghost use Rattle.units.specs.One.{one};
ghost use Rattle.rules.specs.Limits.{most_joint_states};

// The sum of two numbers, at most so much.
pub fn sum_at_most(most: u64, a: u64, b: u64) -> u64
    requires a_bound { a ≤ most_joint_states * one }
    requires b_le_one { b ≤ one }
    ensures { result ≡ min most (a + b) }
{
    most.min(a + b)
}
