// Counts of what was written.

// What is counted of a listing.
#[derive(Clone, Copy)]
pub struct PathCount {
    pub paths: u32,
}
