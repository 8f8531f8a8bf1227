// The gates of a study, each with its distinct inputs alone: they are found once, before any joint state is looked at.
ghost use Rattle.std.specs.Prelude.{ℕ, ◌<◌, ◌≤◌, get_or};
ghost use Rattle.rules.specs.Limits.{most_gates};
ghost use Rattle.study.specs.Places.{no_gate};
ghost use Rattle.gate_order.specs.Order.{InOrder};
ghost use Rattle.fault_tree.specs.Told.{OnceEach};

use gate_order::without_repeats;
use rules::GATE_PLACES;
use study::Gate;

// The first n gates, whose inputs are in order, without their repeats.
pub fn distinct_gates(gates: &[Gate; GATE_PLACES], n: usize) -> [Gate; GATE_PLACES]
    requires few { n ≤ most_gates }
    requires order { (i : ℕ) → i < n → InOrder (get_or gates.now i no_gate) }
    ensures { OnceEach gates.now n result }
{
    let mut once = *gates;
    for i in 0..n {
        once[i] = without_repeats(&gates[i]);
    }
    once
}
