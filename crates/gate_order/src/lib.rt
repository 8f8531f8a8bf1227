// Puts the inputs of gates in order, tells whether they are, and finds the distinct ones. Not for callers from outside.
#![tactic(auto)]

mod front;

ghost use Rattle.std.specs.Prelude.{◌≡◌, IfOk};
ghost use Rattle.rules.specs.Refusals.{breach_of};
ghost use Rattle.study.specs.Places.{ShapedGate};
ghost use Rattle.gate_order.specs.Inputs.{input_count};
ghost use Rattle.gate_order.specs.Rows.{distinct_gate};
ghost use Rattle.gate_order.specs.Breach.{order_fault};
ghost use Rattle.gate_order.specs.Lent.{PutInOrder};
ghost use Rattle.gate_order.specs.Order.{InOrder};

use front::{count_front, keep_front, order_front};
use rules::{INPUT_PLACES, Refusal};
use study::Gate;

// What stands beside gate inputs, where tests have their masks.
const NO_MASKS: [u8; INPUT_PLACES] = [0; INPUT_PLACES];

// Puts the inputs of a gate in order, in their places, and says how many of them are distinct, tests and gates
// together.
pub fn put_in_order(g: &mut Gate) -> u32
    ensures { PutInOrder g.old g.new result }
{
    let mut masks = NO_MASKS;
    let tests = order_front(g.tests, &mut g.component, &mut g.mask);
    let gates = order_front(g.gates, &mut g.input, &mut masks);
    u32::from(tests) + u32::from(gates)
}

// Goes along the inputs of a gate once: how many are distinct, tests and gates together, where they are in order.
#[tactic(auto, using(rules::proofs::Judged::judged), unfolding(crate::specs::Breach::order_fault))]
pub fn judge_inputs(g: &Gate) -> Result<u32, Refusal>
    ensures order { breach_of result ≡ order_fault g.now }
    ensures many { IfOk result (λ distinct. distinct ≡ input_count g.now) }
{
    let tests = count_front(g.tests, &g.component, &g.mask)?;
    let gates = count_front(g.gates, &g.input, &NO_MASKS)?;
    Ok(u32::from(tests) + u32::from(gates))
}

// A gate in order with its distinct inputs alone. It has its places, as every gate that is given by value.
pub fn without_repeats(g: &Gate) -> Gate
    ensures places { ShapedGate g.now }
    ensures inputs { InOrder g.now → result ≡ distinct_gate g.now }
{
    let (mut component, mut mask, mut input) = (g.component, g.mask, g.input);
    let mut masks = NO_MASKS;
    let tests = keep_front(g.tests, &mut component, &mut mask) as u8;
    let gates = keep_front(g.gates, &mut input, &mut masks) as u8;
    Gate {
        threshold: g.threshold,
        tests,
        component,
        mask,
        gates,
        input,
    }
}
