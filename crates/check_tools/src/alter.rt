// Sets one field of a study to any value, as no call of the library would.
//
// A field has a number of two hexadecimal digits, the kind of its record (as in `show`) and the field in it:
//
//     0 the study        00 number of components, 01 number of gates, 02 number of loads
//     1 a component      10 state count, 11 12 13 probability of that state
//     2 a gate           20 threshold, 21 number of tests, 22 component of a test, 23 mask of a test, 24 number of gate
//                        inputs, 25 gate input
//     3 a load           30 loss gate, 31 customers, 32 minutes
use rules::{COMPONENT_PLACES, GATE_PLACES, INPUT_PLACES, LOAD_PLACES, TEST_PLACES};
use study::Study;

// The study with one field of this item anew; a test or a gate input is the one in this place. A field of one byte
// takes the lowest byte of the value.
pub fn altered(field: u8, item: usize, place: usize, value: u32, study: &Study) -> Study {
    let mut study = *study;
    let [byte, ..] = value.to_le_bytes();
    let component = item % COMPONENT_PLACES;
    let gate = item % GATE_PLACES;
    let load = item % LOAD_PLACES;
    match field {
        0x00 => study.components = byte,
        0x01 => study.gates = byte,
        0x02 => study.loads = byte,
        0x10 => study.component[component].states = byte,
        0x11 => study.component[component].p1 = value,
        0x12 => study.component[component].p2 = value,
        0x13 => study.component[component].p3 = value,
        0x20 => study.gate[gate].threshold = byte,
        0x21 => study.gate[gate].tests = byte,
        0x22 => study.gate[gate].component[place % TEST_PLACES] = byte,
        0x23 => study.gate[gate].mask[place % TEST_PLACES] = byte,
        0x24 => study.gate[gate].gates = byte,
        0x25..=0x2f => study.gate[gate].input[place % INPUT_PLACES] = byte,
        0x30 => study.load[load].gate = byte,
        0x31 => study.load[load].customers = value,
        0x32 => study.load[load].minutes = value,
        _ => {}
    }
    study
}
