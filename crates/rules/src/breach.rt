// What every row of the refusal table does: it refuses where its rule is broken.
ghost use Rattle.std.specs.Prelude.{◌≡◌};
ghost use Rattle.rules.specs.Breach.{refuse, outside};
ghost use Rattle.rules.specs.Refusals.{row_of, breach_of};

use crate::refusal::Refusal;

// Refused where the rule is broken.
#[tactic(auto, unfolding(crate::specs::Breach::refuse))]
pub fn refuse(refusal: Refusal, broken: bool) -> Result<(), Refusal>
    ensures { breach_of result ≡ refuse (row_of refusal) broken }
{
    if broken { Err(refusal) } else { Ok(()) }
}

// Refused where n is not one of lowest to highest.
#[tactic(auto, unfolding(crate::specs::Breach::refuse, crate::specs::Breach::outside))]
pub fn refuse_outside(refusal: Refusal, lowest: u32, highest: u32, n: u32) -> Result<(), Refusal>
    ensures { breach_of result ≡ refuse (row_of refusal) (outside lowest highest n) }
{
    if n < lowest {
        return Err(refusal);
    }
    refuse(refusal, highest < n)
}
