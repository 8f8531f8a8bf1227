// The chances of surviving and of failure, from a failure rate and hours.
#![tactic(auto)]

ghost use Rattle.std.specs.Prelude.{◌≡◌};
ghost use Rattle.answers.specs.Answers.{by_number};
ghost use Rattle.exponential.specs.Worked.{Units};
ghost use Rattle.survival.specs.Chances.{exponent_of, chances_by};
ghost use Rattle.survival.specs.Promise.{Answers};

use answers::{Chances, Enclosure};
use rules::{Refusal, far_fault};
use units::ONE;

// FIT times hours: the product of two numbers of four bytes needs eight.
fn exponent(fit: u32, hours: u32) -> u64
    ensures { result ≡ exponent_of fit hours }
{
    u64::from(fit) * u64::from(hours)
}

// The chance of surviving within these bounds, and that of failure: one less each, swapped.
fn chances(surviving: Enclosure) -> Chances
    requires { Units surviving }
    ensures { result ≡ chances_by surviving }
{
    let one = u64::from(ONE);
    Chances {
        survival: surviving,
        failure: Enclosure {
            lower: one - surviving.upper,
            upper: one - surviving.lower,
        },
    }
}

// The chances of surviving so many hours at a rate in FIT, and of a failure in them. Refused by 23.
pub fn survival(fit: u32, hours: u32) -> Result<Chances, Refusal>
    ensures { Answers fit hours (by_number result) }
{
    let x = exponent(fit, hours);
    far_fault(x)?;
    Ok(chances(exponential::survival(x)))
}
