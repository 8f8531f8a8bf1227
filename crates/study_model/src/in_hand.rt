// A model in hand beside the classes of its joint states, and what of its arrays is in use.
ghost use Rattle.model.specs.InHand.{InHand};

use crate::block::counts_in_use;
use entries::Class;
use event_tree::ClassBlock;
use model::HeldModel;
use probability::{ListedPaths, first_components};
use study::{Load, joint_states};

// A model in hand, and a table that has the class of each of its joint states by number.
#[derive(Clone, Copy)]
pub struct ModelInHand<'a> {
    pub held: &'a HeldModel,
    pub classes: &'a [Class],
    pub ghost in_hand: { InHand held.now classes.now },
}

impl<'a> ModelInHand<'a> {
    ghost use Rattle.std.specs.Prelude.{◌≡◌};
    ghost use Rattle.model.specs.Listed.{Listed};
    ghost use Rattle.model.specs.Model.{components, probability_table};
    ghost use Rattle.study_model.specs.InHand.{model_in, BlockOf, PathsOf};

    // How many components it has.
    pub fn components(self) -> usize
        ensures { result ≡ components (model_in self.entry) }
    {
        usize::from(self.held.components)
    }

    // The probabilities of its components' states, one component behind the other.
    pub fn probabilities(self) -> &'a [u32]
        ensures { result.now ≡ probability_table (model_in self.entry) }
    {
        first_components(&self.held.probabilities, self.components())
    }

    // The loads in use.
    pub fn loads(self) -> &'a [Load]
        ensures { result.now ≡ (model_in self.entry).loads }
    {
        &self.held.load[..usize::from(self.held.loads)]
    }

    // The state counts of its components, and the classes of its joint states.
    pub fn block(self) -> ClassBlock<'a>
        ensures { BlockOf (model_in self.entry) result }
    {
        let counts = counts_in_use(self.held.components, &self.held.counts);
        let joint = joint_states(counts) as usize;
        ClassBlock {
            counts,
            classes: &self.classes[..joint],
        }
    }

    // The list of its paths, beside the probabilities that bound them.
    pub fn listed(self, list: &'a [u8], paths: u32) -> ListedPaths<'a>
        requires { Listed (model_in self) paths list.now }
        ensures { PathsOf (model_in self.entry) result }
    {
        ListedPaths {
            probabilities: self.probabilities(),
            components: self.components(),
            list,
            paths: paths as usize,
        }
    }
}
