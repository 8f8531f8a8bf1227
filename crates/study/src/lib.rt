// The study: its components, gates and loads, as an opened study holds them. Structs, their zero and absent values, and
// state counts.
#![tactic(auto)]

ghost use Rattle.std.specs.Prelude.{ℕ, ◌≤◌, ◌<◌, ◌≡◌, length, get_or};
ghost use Rattle.rules.specs.Limits.{most_components, most_states};
ghost use Rattle.lists.specs.Product.{product};
ghost use Rattle.study.specs.Zero.{zero_study};
ghost use Rattle.study.specs.Joint.{states};
ghost use Rattle.study.specs.Absent.{absent_component, absent_gate, absent_load};

use rules::{COMPONENT_PLACES, GATE_PLACES, INPUT_PLACES, LOAD_PLACES, TEST_PLACES};

// A component: its state count, and the probabilities of states 1 to 3 in units. State 0, "up", has the rest of one.
#[derive(Clone, Copy, Default)]
pub struct Component {
    pub states: u8,
    pub p1: u32,
    pub p2: u32,
    pub p3: u32,
}

// A voting gate: true when at least `threshold` of its distinct inputs are. Its tests are pairs of a component and a mask
// of its states; its gate inputs are numbers of lower gates.
#[derive(Clone, Copy, Default)]
pub struct Gate {
    pub threshold: u8,
    pub tests: u8,
    pub component: [u8; TEST_PLACES],
    pub mask: [u8; TEST_PLACES],
    pub gates: u8,
    pub input: [u8; INPUT_PLACES],
}

// A load point: its loss gate (`rules::NEVER`: it is never lost), its customers and its restore time in minutes.
#[derive(Clone, Copy, Default)]
pub struct Load {
    pub gate: u8,
    pub customers: u32,
    pub minutes: u32,
}

// A study: the number of records of each kind, and the places for them. Places that no record uses hold 0.
#[derive(Clone, Copy, Default)]
pub struct Study {
    pub components: u8,
    pub gates: u8,
    pub loads: u8,
    pub component: [Component; COMPONENT_PLACES],
    pub gate: [Gate; GATE_PLACES],
    pub load: [Load; LOAD_PLACES],
}

// Places that no record uses, and fields that a record does not give.

pub fn zero_study() -> Study
    ensures { result ≡ zero_study }
{
    Study::default()
}

pub fn absent_component() -> Component
    ensures { result ≡ absent_component }
{
    Component {
        states: 2,
        ..Component::default()
    }
}

#[tactic(auto, using(crate::proofs::Defaults::gate_default), unfolding(crate::specs::Zero::zero_gate, crate::specs::Absent::absent_gate))]
pub fn absent_gate() -> Gate
    ensures { result ≡ absent_gate }
{
    Gate {
        threshold: 1,
        ..Gate::default()
    }
}

pub fn absent_load() -> Load
    ensures { result ≡ absent_load }
{
    Load {
        gate: rules::NEVER,
        ..Load::default()
    }
}

// The state counts of all twelve component places; those of the study's components stand first.
pub fn state_counts(component: &[Component; COMPONENT_PLACES]) -> [u8; COMPONENT_PLACES]
    ensures { result ≡ states component.now }
{
    component.map(|place| place.states)
}

// The state count of a component, and 0 for one that is not in the study.
pub fn states_of(counts: &[u8], component: u8) -> u8
    ensures { result ≡ get_or counts.now component 0 }
{
    counts.get(usize::from(component)).copied().unwrap_or(0)
}

// The number of joint states of components with these state counts, each at most 4.
pub fn joint_states(counts: &[u8]) -> u32
    requires few { length counts.now ≤ most_components }
    requires small { (k : ℕ) → k < length counts.now → get_or counts.now k 0 ≤ most_states }
    ensures { result ≡ product counts.now }
{
    let mut joint: u32 = 1;
    for count in counts {
        joint *= u32::from(*count);
    }
    joint
}
