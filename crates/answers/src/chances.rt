// The chances of surviving and of failure.
use units::Enclosure;

// Bounds, in units, for the chance of surviving and for that of failure.
#[derive(Clone, Copy)]
pub struct Chances {
    pub survival: Enclosure,
    pub failure: Enclosure,
}
