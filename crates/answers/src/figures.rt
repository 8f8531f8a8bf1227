// The interruption figures.
use units::Enclosure;

// CAIDI in whole minutes: a pair of bounds, or not stated.
#[derive(Clone, Copy)]
pub enum Caidi {
    Bounds(Enclosure),
    NotStated,
}

// SAIFI in units, SAIDI in billionths of a minute, CAIDI, MAIFI in units.
#[derive(Clone, Copy)]
pub struct Figures {
    pub saifi: Enclosure,
    pub saidi: Enclosure,
    pub caidi: Caidi,
    pub maifi: Enclosure,
}
