// Writes a study as bytes that open to it, at the front of a lent buffer.
// Not for callers from outside: those call `planning`.
#![tactic(auto)]

mod components;
mod fields;
mod gates;
mod inputs;
mod loads;
mod records;
mod saving;

pub use saving::write;
