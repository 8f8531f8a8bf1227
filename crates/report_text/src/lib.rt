// The report of a study as text in a lent buffer, beside the bounds of its classes in two lent slices.
#![tactic(auto)]

mod buffer;
mod measuring;
mod model_text;
mod refusing;
mod reporting;

pub use buffer::REPORT_BYTES;
pub use reporting::report;
