// Which loads take part in which sum.
ghost use Rattle.std.specs.Prelude.{◌≡◌};
ghost use Rattle.indices.specs.Parts.{short};

use rules::is_momentary;
use study::Load;

// Whether the losses of a load are momentary.
#[tactic(auto, unfolding(crate::specs::Parts::short))]
pub fn is_short(load: &Load) -> bool
    ensures { result ≡ short load.now }
{
    is_momentary(load.minutes)
}
