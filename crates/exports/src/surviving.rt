// The chances of surviving and of failure, from a failure rate and hours.
ghost use Rattle.export_answers.specs.Answers.{two};
ghost use Rattle.export_survival.specs.Chances.{GivesChances};

// Bounds for the chance of surviving so many hours at a rate in FIT, and of a failure in them, lower and upper of each
// in a number of its own. Refused by 23.
#[unsafe(no_mangle)]
pub extern "C" fn grid_survival(
    fit: u32,
    hours: u32,
    survival_lower: &mut u64,
    survival_upper: &mut u64,
    failure_lower: &mut u64,
    failure_upper: &mut u64,
) -> i64
    ensures { GivesChances fit hours
        (two survival_lower.old survival_upper.old)
        (two failure_lower.old failure_upper.old)
        (two survival_lower.new survival_upper.new)
        (two failure_lower.new failure_upper.new) result }
{
    export_survival::survival(
        fit,
        hours,
        survival_lower,
        survival_upper,
        failure_lower,
        failure_upper,
    )
}
