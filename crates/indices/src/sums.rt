// The sums that the figures divide: of C over all loads, and for one bound P of each load's loss, of P × C and P × C × M over those that take part.
ghost use Rattle.std.specs.Prelude.{◌≤◌, ◌≡◌, length};
ghost use Rattle.rules.specs.Limits.{most_served};
ghost use Rattle.model.specs.Good.{Sizes};
ghost use Rattle.indices.specs.Figures.{customers_sum};
ghost use Rattle.indices.specs.Losses.{AtMostOne};
ghost use Rattle.indices.specs.Sums.{SumIs, plus_load, SumsFit, SumsOf};

use crate::parts::is_short;
use rules::LOAD_PLACES;
use study::Load;

// The customers of all loads.
pub fn customers_sum(loads: &[Load]) -> u64
    requires { Sizes loads.now }
    ensures { SumIs (customers_sum loads.now) most_served result }
{
    loads.iter().map(|load| u64::from(load.customers)).sum()
}

// The sums over P: of P × C and of P × C × M over the loads that are not short, and of P × C over those that are.
#[derive(Clone, Copy, Default)]
pub struct Sums {
    pub loss: u64,
    pub minutes: u64,
    pub momentary: u64,
}

impl Sums {
    // One load more, whose loss is bounded so.
    #[tactic(auto, unfolding(crate::specs::Sums::plus_load, crate::specs::Parts::sustained))]
    fn add(&mut self, loss: u64, load: &Load)
        requires { SumsFit (plus_load self.old loss load.now) }
        ensures { self.new ≡ plus_load self.old loss load.now }
    {
        let lost = loss * u64::from(load.customers);
        if is_short(load) {
            self.momentary += lost;
        } else {
            self.loss += lost;
            self.minutes += lost * u64::from(load.minutes);
        }
    }
}

// The sums over loads, from a bound for the loss of each.
pub fn sums_of(losses: &[u64; LOAD_PLACES], loads: &[Load]) -> Sums
    requires sizes { Sizes loads.now }
    requires at_most_one { AtMostOne losses.now (length loads.now) }
    ensures { SumsOf losses.now loads.now result }
{
    let mut sums = Sums::default();
    for (loss, load) in losses.iter().zip(loads) {
        sums.add(*loss, load);
    }
    sums
}
