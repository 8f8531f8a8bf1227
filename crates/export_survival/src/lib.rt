// The chances of surviving and of failure for C, each in two numbers.
#![tactic(auto)]

ghost use Rattle.export_answers.specs.Answers.{two};
ghost use Rattle.export_survival.specs.Chances.{GivesChances};

use export_answers::{hand_pair, refused};

// The chances of surviving so many hours at a rate in FIT, and of a failure in them: lower and upper bound of each in
// a number of its own. Refused by 23.
pub fn survival(
    fit: u32,
    hours: u32,
    survival_lower: &mut u64,
    survival_upper: &mut u64,
    failure_lower: &mut u64,
    failure_upper: &mut u64,
) -> i64
    ensures { GivesChances fit hours
        (two survival_lower.old survival_upper.old)
        (two failure_lower.old failure_upper.old)
        (two survival_lower.new survival_upper.new)
        (two failure_lower.new failure_upper.new) result }
{
    match survival::survival(fit, hours) {
        Ok(chances) => {
            hand_pair(chances.survival, survival_lower, survival_upper);
            hand_pair(chances.failure, failure_lower, failure_upper);
            0
        }
        Err(refusal) => refused(refusal),
    }
}
