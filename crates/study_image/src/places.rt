// Where everything stands in the image of a study.
use rules::{COMPONENT_PLACES, GATE_PLACES, INPUT_PLACES, LOAD_PLACES, TEST_PLACES};

// A number of four bytes.
pub const NUMBER_BYTES: usize = 4;

// In a component place: its state count, then the probabilities of states 1 to 3.
pub const P1_AT: usize = 1;

pub const P2_AT: usize = P1_AT + NUMBER_BYTES;

pub const P3_AT: usize = P2_AT + NUMBER_BYTES;

pub const COMPONENT_BYTES: usize = P3_AT + NUMBER_BYTES;

// In a gate place: its threshold, the number of its tests, the component of each, the mask of each, the number of its gate inputs, and these.
pub const TEST_COUNT_AT: usize = 1;

pub const TEST_COMPONENTS_AT: usize = 2;

pub const TEST_MASKS_AT: usize = TEST_COMPONENTS_AT + TEST_PLACES;

pub const INPUT_COUNT_AT: usize = TEST_MASKS_AT + TEST_PLACES;

pub const INPUTS_AT: usize = INPUT_COUNT_AT + 1;

pub const GATE_BYTES: usize = INPUTS_AT + INPUT_PLACES;

// In a load place: its loss gate, its customers, its minutes.
pub const CUSTOMERS_AT: usize = 1;

pub const MINUTES_AT: usize = CUSTOMERS_AT + NUMBER_BYTES;

pub const LOAD_BYTES: usize = MINUTES_AT + NUMBER_BYTES;

// In the image: the numbers of components, of gates and of loads, then the places of each.
pub const COMPONENT_COUNT_AT: usize = 0;

pub const GATE_COUNT_AT: usize = 1;

pub const LOAD_COUNT_AT: usize = 2;

pub const COMPONENTS_AT: usize = 3;

pub const GATES_AT: usize = COMPONENTS_AT + COMPONENT_PLACES * COMPONENT_BYTES;

pub const LOADS_AT: usize = GATES_AT + GATE_PLACES * GATE_BYTES;

pub const IMAGE_BYTES: usize = LOADS_AT + LOAD_PLACES * LOAD_BYTES;
