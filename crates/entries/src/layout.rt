// The layout of an entry: its blank mark, and the room of the longest list.
use crate::class::CLASS_BYTES;
use rules::{COMPONENT_PLACES, JOINT_STATE_PLACES};

// What stands for the state of a component that is blank on a path: a number that no state has.
pub const BLANK: u8 = 255;

// Room for the longest list: an entry of all components for each joint state.
pub const LIST_BYTES: usize = JOINT_STATE_PLACES * (COMPONENT_PLACES + CLASS_BYTES);
