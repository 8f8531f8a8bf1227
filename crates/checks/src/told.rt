// Makes the calls that answer numbers alone, and shows them.
use planning::{Caidi, Enclosure, Source};
use std::io;
use study::Study;

// Shows a refusal, 0 for none, and the two bounds of a load on a line.
pub fn bound_load(out: &impl Print, study: &Study, source: Source, load: usize) -> io::Result<()> {
    match planning::load_bounds(study, source, load) {
        Ok(pair) => println!(out; "0 {} {}", pair.lower, pair.upper),
        Err(refusal) => println!(out; "{} 0 0", refusal.number()),
    }
}

// Shows two bounds on a line.
fn show_pair(out: &impl Print, pair: Enclosure) -> io::Result<()> {
    println!(out; "{} {}", pair.lower, pair.upper)
}

// Shows CAIDI on a line, and an empty line where it is not stated.
fn show_caidi(out: &impl Print, caidi: Caidi) -> io::Result<()> {
    match caidi {
        Caidi::Bounds(pair) => show_pair(out, pair),
        Caidi::NotStated => println!(out; ""),
    }
}

// Shows the refusal, 0 for none, on a line; unless refused, the figures, a line each.
pub fn figures(out: &impl Print, study: &Study, source: Source) -> io::Result<()> {
    match planning::figures(study, source) {
        Ok(figures) => {
            println!(out; "0")?;
            show_pair(out, figures.saifi)?;
            show_pair(out, figures.saidi)?;
            show_caidi(out, figures.caidi)?;
            show_pair(out, figures.maifi)
        }
        Err(refusal) => println!(out; "{}", refusal.number()),
    }
}

// Shows the refusal, 0 for none, and behind it the bounds for surviving and for failure; then whether those for
// surviving have a number at or above the lower one and another at or below the upper one.
pub fn survival(out: &impl Print, fit: u32, hours: u32, least: u32, most: u32) -> io::Result<()> {
    match planning::survival(fit, hours) {
        Ok(chances) => {
            let survival = chances.survival;
            let failure = chances.failure;
            print!(out; "0 {} {} ", survival.lower, survival.upper)?;
            show_pair(out, failure)?;
            let below = u8::from(survival.lower <= u64::from(least));
            let above = u8::from(u64::from(most) <= survival.upper);
            println!(out; "{below} {above}")
        }
        Err(refusal) => println!(out; "{}", refusal.number()),
    }
}
