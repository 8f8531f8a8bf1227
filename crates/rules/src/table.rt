// The rows of the refusal table from 2 on, one function each: refused by the row where its rule is broken.
ghost use Rattle.std.specs.Prelude.{◌≤◌, ◌≡◌};
ghost use Rattle.rules.specs.Limits.{most_loads};
ghost use Rattle.rules.specs.Table.{count_fault, stray_fault, states_fault, no_state_fault, sum_fault, width_fault, inputs_fault};
ghost use Rattle.rules.specs.Table.{no_component_fault, mask_fault, ahead_fault, threshold_fault, no_gate_fault, size_fault, left_fault};
ghost use Rattle.rules.specs.Table.{unsound_fault, unused_fault, item_fault, room_fault, customers_fault, node_fault, behind_fault, leaf_fault};
ghost use Rattle.rules.specs.Table.{lacked_state_fault, input_count_fault, loss_gate_fault, far_fault};
ghost use Rattle.rules.specs.Refusals.{breach_of};

use crate::breach::{refuse, refuse_outside};
use crate::limits::{FARTHEST, FEWEST_STATES, MASK_BITS, MOST_JOINT_STATES, MOST_STATES, NEVER};
use crate::refusal::Refusal;

// 2 counts
pub fn count_fault(most: u8, n: u8) -> Result<(), Refusal>
    ensures { breach_of result ≡ count_fault most n }
{
    refuse_outside(Refusal::Counts, 1, most as u32, n as u32)
}

// 3 stray bit
pub fn stray_fault(maps: u8, map: u8) -> Result<(), Refusal>
    ensures { breach_of result ≡ stray_fault maps map }
{
    refuse(Refusal::StrayBit, maps <= map)
}

// 4 states
pub fn states_fault(states: u8) -> Result<(), Refusal>
    ensures { breach_of result ≡ states_fault states }
{
    refuse_outside(Refusal::States, FEWEST_STATES, MOST_STATES, states as u32)
}

// 5 no state
pub fn no_state_fault(states: u8, state: u8) -> Result<(), Refusal>
    ensures { breach_of result ≡ no_state_fault states state }
{
    refuse(Refusal::NoState, states <= state)
}

// 5 no state, in a study and in an edit
#[tactic(auto, unfolding(crate::specs::Breach::unless_absent))]
pub fn lacked_state_fault(states: u8, state: u8, p: u32) -> Result<(), Refusal>
    ensures { breach_of result ≡ lacked_state_fault states state p }
{
    if p == 0 {
        return Ok(());
    }
    no_state_fault(states, state)
}

// 6 over one: the sum of three numbers of four bytes needs more than four.
pub fn sum_fault(p1: u32, p2: u32, p3: u32) -> Result<(), Refusal>
    ensures { breach_of result ≡ sum_fault p1 p2 p3 }
{
    refuse(
        Refusal::OverOne,
        (units::ONE as u64) < p1 as u64 + p2 as u64 + p3 as u64,
    )
}

// 7 too wide
pub fn width_fault(joint_states: u32) -> Result<(), Refusal>
    ensures { breach_of result ≡ width_fault joint_states }
{
    refuse(Refusal::TooWide, MOST_JOINT_STATES < joint_states)
}

// 8 inputs
pub fn inputs_fault(most: u8, n: u8) -> Result<(), Refusal>
    ensures { breach_of result ≡ inputs_fault most n }
{
    refuse_outside(Refusal::Inputs, 1, most as u32, n as u32)
}

// 8 inputs, in a study
#[tactic(auto, unfolding(crate::specs::Breach::unless_absent))]
pub fn input_count_fault(most: u8, n: u8) -> Result<(), Refusal>
    ensures { breach_of result ≡ input_count_fault most n }
{
    if n == 0 {
        return Ok(());
    }
    inputs_fault(most, n)
}

// 9 no component
pub fn no_component_fault(components: usize, component: u8) -> Result<(), Refusal>
    ensures { breach_of result ≡ no_component_fault components component }
{
    refuse(Refusal::NoComponent, components <= component as usize)
}

// 10 mask: with as many states as a mask has bits, or more, every bit has its state.
pub fn mask_fault(states: u8, mask: u8) -> Result<(), Refusal>
    ensures { breach_of result ≡ mask_fault states mask }
{
    if MASK_BITS <= states {
        return refuse(Refusal::Mask, mask < 1);
    }
    refuse_outside(Refusal::Mask, 1, (1u32 << states) - 1, mask as u32)
}

// 11 gate ahead
pub fn ahead_fault(gate: usize, input: u8) -> Result<(), Refusal>
    ensures { breach_of result ≡ ahead_fault gate input }
{
    refuse(Refusal::GateAhead, gate <= input as usize)
}

// 12 threshold
pub fn threshold_fault(inputs: u32, threshold: u8) -> Result<(), Refusal>
    ensures { breach_of result ≡ threshold_fault inputs threshold }
{
    refuse_outside(Refusal::Threshold, 1, inputs, threshold as u32)
}

// 13 no gate
pub fn no_gate_fault(gates: u8, gate: u8) -> Result<(), Refusal>
    ensures { breach_of result ≡ no_gate_fault gates gate }
{
    refuse(Refusal::NoGate, gates <= gate)
}

// 13 no gate, in a study
#[tactic(auto, unfolding(crate::specs::Breach::unless_absent))]
pub fn loss_gate_fault(gates: u8, gate: u8) -> Result<(), Refusal>
    ensures { breach_of result ≡ loss_gate_fault gates gate }
{
    if gate == NEVER {
        return Ok(());
    }
    no_gate_fault(gates, gate)
}

// 14 load size
pub fn size_fault(most: u32, n: u32) -> Result<(), Refusal>
    ensures { breach_of result ≡ size_fault most n }
{
    refuse(Refusal::LoadSize, most < n)
}

// 15 left over
pub fn left_fault(bytes: usize) -> Result<(), Refusal>
    ensures { breach_of result ≡ left_fault bytes }
{
    refuse(Refusal::LeftOver, 0 < bytes)
}

// 16 unsound
pub fn unsound_fault(sound: bool) -> Result<(), Refusal>
    ensures { breach_of result ≡ unsound_fault sound }
{
    refuse(Refusal::Unsound, !sound)
}

// 16 unsound: the fields of a place that no record uses, and 0 for those that it does not have
pub fn unused_fault(a: u32, b: u32, c: u32, d: u32) -> Result<(), Refusal>
    ensures { breach_of result ≡ unused_fault a b c d }
{
    refuse(
        Refusal::Unsound,
        0 < a as u64 + b as u64 + c as u64 + d as u64,
    )
}

// 17 no item
pub fn item_fault(count: u8, item: usize) -> Result<(), Refusal>
    ensures { breach_of result ≡ item_fault count item }
{
    refuse(Refusal::NoItem, count as usize <= item)
}

// 18 no room
pub fn room_fault(need: usize, room: usize) -> Result<(), Refusal>
    ensures { breach_of result ≡ room_fault need room }
{
    refuse(Refusal::NoRoom, room < need)
}

// 19 no customers
pub fn customers_fault(sum: u64) -> Result<(), Refusal>
    ensures { breach_of result ≡ customers_fault sum }
{
    refuse(Refusal::NoCustomers, sum == 0)
}

// 20 node
#[tactic(auto, unfolding(crate::specs::Breach::refuse))]
pub fn node_fault(components: usize, component: u8, asked: bool) -> Result<(), Refusal>
    ensures { breach_of result ≡ node_fault components component asked }
{
    if components <= component as usize {
        return Err(Refusal::Node);
    }
    refuse(Refusal::Node, asked)
}

// 21 bad end, where bytes follow the tree
pub fn behind_fault(bytes: usize) -> Result<(), Refusal>
    ensures { breach_of result ≡ behind_fault bytes }
{
    refuse(Refusal::BadEnd, 0 < bytes)
}

// 22 leaf
pub fn leaf_fault(loads: u8, class: u32) -> Result<(), Refusal>
    requires { loads ≤ most_loads }
    ensures { breach_of result ≡ leaf_fault loads class }
{
    refuse(Refusal::Leaf, 0 < class >> loads)
}

// 23 too far
pub fn far_fault(exponent: u64) -> Result<(), Refusal>
    ensures { breach_of result ≡ far_fault exponent }
{
    refuse(Refusal::TooFar, FARTHEST < exponent)
}
