// The refusal table in code: each rule of studies, drawn trees and exponents once, refused by its row where it is
// broken. Opening, the soundness check and the edits all refuse by these. Beside the table, which losses are momentary. Not for callers from outside: those call `planning`.
#![tactic(auto)]

mod breach;
mod limits;
mod refusal;
mod table;

pub use limits::{
    COMPONENT_MAPS, COMPONENT_PLACES, GATE_MAPS, GATE_PLACES, INPUT_PLACES, JOINT_STATE_PLACES,
    LOAD_MAPS, LOAD_PLACES, LONGEST_STUDY, MOST_COMPONENTS, MOST_CUSTOMERS, MOST_GATE_INPUTS,
    MOST_GATES, MOST_LOADS, MOST_MINUTES, MOST_TESTS, NEVER, STATE_PLACES, TEST_PLACES,
    is_momentary,
};
pub use refusal::{Refusal, Row};
pub use table::{
    ahead_fault, behind_fault, count_fault, customers_fault, far_fault, input_count_fault,
    inputs_fault, item_fault, lacked_state_fault, leaf_fault, left_fault, loss_gate_fault,
    mask_fault, no_component_fault, no_gate_fault, no_state_fault, node_fault, room_fault,
    size_fault, states_fault, stray_fault, sum_fault, threshold_fault, unsound_fault, unused_fault,
    width_fault,
};
