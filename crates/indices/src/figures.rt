// SAIFI, SAIDI, CAIDI and MAIFI.
ghost use Rattle.std.specs.Prelude.{◌<◌, ◌≤◌, ◌≡◌, length};
ghost use Rattle.rules.specs.Limits.{most_served};
ghost use Rattle.model.specs.Good.{Sizes};
ghost use Rattle.indices.specs.Figures.{quotients as figures_quotients, caidi, figures_of};
ghost use Rattle.indices.specs.Losses.{LossBounds};
ghost use Rattle.indices.specs.Sums.{most_loss, most_loss_minutes, SumsFit};

use crate::sums::{Sums, sums_of};
use answers::{Caidi, Enclosure, Figures};
use rules::LOAD_PLACES;
use study::Load;
use units::{quotient_down, quotient_up};

// Bounds for the losses of all load places.
#[derive(Clone, Copy)]
pub struct Losses {
    pub lower: [u64; LOAD_PLACES],
    pub upper: [u64; LOAD_PLACES],
}

// A lower sum over its divisor, rounded down, and an upper sum over its own, rounded up.
fn quotients(low: u64, low_divisor: u64, high: u64, high_divisor: u64) -> Enclosure
    requires low_divisor_nonzero { 0 < low_divisor }
    requires high_le_most_loss_minutes { high ≤ most_loss_minutes }
    requires high_divisor_nonzero { 0 < high_divisor }
    requires high_divisor_le_most_loss { high_divisor ≤ most_loss }
    ensures { result ≡ figures_quotients low low_divisor high high_divisor }
{
    Enclosure {
        lower: quotient_down(low, low_divisor),
        upper: quotient_up(high, high_divisor),
    }
}

// CAIDI, from lower and upper sums.
#[tactic(auto, unfolding(crate::specs::Figures::caidi))]
fn caidi_of(low: Sums, high: Sums) -> Caidi
    requires loss_le_loss { low.loss ≤ high.loss }
    requires sums_fit { SumsFit low }
    requires sums_fit_2 { SumsFit high }
    ensures { result ≡ caidi low.loss high.loss low.minutes high.minutes }
{
    if low.loss == 0 {
        return Caidi::NotStated;
    }
    Caidi::Bounds(quotients(low.minutes, high.loss, high.minutes, low.loss))
}

// The figures of loads, from the customers served, and lower and upper bounds for the loss of each load.
pub fn figures_of(customers: u64, losses: &Losses, loads: &[Load]) -> Figures
    requires sizes { Sizes loads.now }
    requires loss_bounds { LossBounds losses.now.lower losses.now.upper (length loads.now) }
    requires customers_nonzero { 0 < customers }
    requires customers_le_most_served { customers ≤ most_served }
    ensures { result ≡ figures_of customers losses.now.lower losses.now.upper loads.now }
{
    let low = sums_of(&losses.lower, loads);
    let high = sums_of(&losses.upper, loads);
    Figures {
        saifi: quotients(low.loss, customers, high.loss, customers),
        saidi: quotients(low.minutes, customers, high.minutes, customers),
        caidi: caidi_of(low, high),
        maifi: quotients(low.momentary, customers, high.momentary, customers),
    }
}
