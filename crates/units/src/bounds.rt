// A pair of bounds.

// A lower and an upper bound.
#[derive(Clone, Copy)]
pub struct Enclosure {
    pub lower: u64,
    pub upper: u64,
}
