// The load places of a study.
ghost use Rattle.std.specs.Prelude.{◌≡◌};
ghost use Rattle.rules.specs.Refusals.{breach_of};
ghost use Rattle.soundness.specs.Check.{load_fault, load_place_fault, loads_fault};

use rules::{
    LOAD_PLACES, MOST_CUSTOMERS, MOST_MINUTES, Refusal, loss_gate_fault, size_fault, unused_fault,
};
use study::Load;

// The first breach of a load of a study with so many gates.
#[tactic(auto, using(rules::proofs::Judged::judged), unfolding(crate::specs::Check::load_fault))]
fn load_fault(gates: u8, l: &Load) -> Result<(), Refusal>
    ensures { breach_of result ≡ load_fault gates l.now }
{
    loss_gate_fault(gates, l.gate)?;
    size_fault(MOST_CUSTOMERS, l.customers)?;
    size_fault(MOST_MINUTES, l.minutes)
}

// The first breach of load place j of a study with so many gates and n loads.
#[tactic(auto, unfolding(crate::specs::Check::load_place_fault, crate::specs::Check::unused_load_fault))]
fn load_place_fault(gates: u8, n: u8, j: usize, l: &Load) -> Result<(), Refusal>
    ensures { breach_of result ≡ load_place_fault gates n j l.now }
{
    if j < usize::from(n) {
        return load_fault(gates, l);
    }
    unused_fault(u32::from(l.gate), l.customers, l.minutes, 0)
}

// The first breach among the load places of a study with so many gates and n loads.
#[tactic(auto, using(crate::proofs::Places::place_passed))]
pub fn loads_fault(gates: u8, n: u8, load: &[Load; LOAD_PLACES]) -> Result<(), Refusal>
    ensures { breach_of result ≡ loads_fault gates n load.now }
{
    for (j, l) in load.iter().enumerate() {
        load_place_fault(gates, n, j, l)?;
    }
    Ok(())
}
