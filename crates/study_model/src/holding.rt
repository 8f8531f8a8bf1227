// The model in hand, made once for a call.
ghost use Rattle.std.specs.Prelude.{◌≡◌, length};
ghost use Rattle.rules.specs.Limits.{most_loads};
ghost use Rattle.soundness.specs.Sound.{Sound};
ghost use Rattle.study_model.specs.Holding.{Holds};

use crate::probabilities::probability_table;
use model::HeldModel;
use rules::LOAD_PLACES;
use study::{Load, Study, state_counts};

// All load places. A function of its own, since its contract says how many they are, which a lent study does not.
fn load_places(load: &[Load; LOAD_PLACES]) -> [Load; LOAD_PLACES]
    ensures same { result ≡ load.now }
    ensures places { length load.now ≡ most_loads }
{
    *load
}

// What is behind the class table of a sound study.
pub fn hold(study: &Study) -> HeldModel
    requires { Sound study.now }
    ensures { Holds study.now result }
{
    HeldModel {
        components: study.components,
        counts: state_counts(&study.component),
        probabilities: probability_table(&study.component),
        loads: study.loads,
        load: load_places(&study.load),
    }
}
