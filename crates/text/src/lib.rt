// Text in a lent buffer: bytes, decimal numbers and lines. Grids are not known here.
#![tactic(auto)]

mod bytes;
mod lines;
mod numbers;
mod writer;

pub use bytes::copy;
pub use numbers::ZERO;
pub use writer::Writer;
