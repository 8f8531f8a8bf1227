// Pairs of lent slices, one for lower and one for upper bounds.
ghost use Rattle.std.specs.Prelude.{◌≡◌};
ghost use Rattle.rules.specs.Refusals.{breach_of};
ghost use Rattle.evaluation.specs.Rooms.{pair_fault};

use rules::{Refusal, room_fault};

// Whether each of two slices has so many places. Refused by 18.
#[tactic(auto, using(rules::proofs::Judged::judged), unfolding(crate::specs::Rooms::pair_fault))]
pub fn pair_fault(need: usize, lower: usize, upper: usize) -> Result<(), Refusal>
    ensures { breach_of result ≡ pair_fault need lower upper }
{
    room_fault(need, lower)?;
    room_fault(need, upper)
}
