// The totals of a model's paths.
use crate::in_hand::ModelInHand;
use totals::{Tally, add_totals};

impl ModelInHand<'_> {
    ghost use Rattle.units.specs.One.{one};
    ghost use Rattle.units.specs.Rounding.{down, up};
    ghost use Rattle.totals.specs.Places.{sums_most, places_of, Totals, Adds};
    ghost use Rattle.study_model.specs.InHand.{model_in};
    ghost use Rattle.study_model.specs.Totals.{paths_bring};

    // Adds the bounds of all paths to totals by class or by load: lower ones to the first slice, upper ones to the second, at most one.
    pub fn add_paths<T: Tally>(self, lower: &mut [u64], upper: &mut [u64])
        requires totals { Totals sums_most (places_of T.loadwise) lower.old }
        requires totals_2 { Totals one (places_of T.loadwise) upper.old }
        ensures lower { Adds sums_most (places_of T.loadwise) (paths_bring T.loadwise down (model_in self.entry))
            lower.old lower.new }
        ensures upper { Adds one (places_of T.loadwise) (paths_bring T.loadwise up (model_in self.entry))
            upper.old upper.new }
    {
        add_totals::<T>(self.block(), self.probabilities(), lower, upper);
    }
}
