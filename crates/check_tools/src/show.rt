// Shows a record of a study as a line of its fields.
use rules::{COMPONENT_PLACES, GATE_PLACES, LOAD_PLACES};
use std::{fmt, io};
use study::{Gate, Study};

// The threshold, the number of tests, the component and the mask of each test place, the number of gate inputs, and
// each input place.
#[derive(Clone, Copy)]
struct GateFields<'a>(&'a Gate);

impl fmt::Display for GateFields<'_> {
    fn fmt<W: fmt::Write>(&self, f: &mut fmt::Formatter<W>) -> fmt::Result {
        let gate = self.0;
        write!(f, "{} {}", gate.threshold, gate.tests)?;
        for (component, mask) in gate.component.iter().zip(&gate.mask) {
            write!(f, " {component} {mask}")?;
        }
        write!(f, " {}", gate.gates)?;
        for input in &gate.input {
            write!(f, " {input}")?;
        }
        Ok(())
    }
}

// Shows a record by its kind: 0 the counts; 1 a component, its state count and the probabilities of states 1 to 3; 2 a
// gate; 3 a load, its loss gate (255: never lost), its customers and its minutes.
pub fn show(out: &impl Print, kind: u8, item: usize, study: &Study) -> io::Result<()> {
    match kind {
        0 => println!(out; "{} {} {}", study.components, study.gates, study.loads),
        1 => {
            let component = study.component[item % COMPONENT_PLACES];
            println!(out;
                "{} {} {} {}",
                component.states, component.p1, component.p2, component.p3
            )
        }
        2 => println!(out; "{}", GateFields(&study.gate[item % GATE_PLACES])),
        _ => {
            let load = study.load[item % LOAD_PLACES];
            println!(out; "{} {} {}", load.gate, load.customers, load.minutes)
        }
    }
}
