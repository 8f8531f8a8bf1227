// The limits of the study format, which losses are momentary, and how far an exponent goes.
ghost use Rattle.std.specs.Prelude.{◌≡◌};
ghost use Rattle.rules.specs.Limits.{momentary};

pub const MOST_COMPONENTS: u8 = 12;

pub const MOST_GATES: u8 = 32;

pub const MOST_LOADS: u8 = 8;

pub const FEWEST_STATES: u32 = 2;

pub const MOST_STATES: u32 = 4;

// A mask is a byte.
pub const MASK_BITS: u8 = 8;

pub const MOST_JOINT_STATES: u32 = 4096;

pub const MOST_TESTS: u8 = 12;

pub const MOST_GATE_INPUTS: u8 = 31;

pub const MOST_CUSTOMERS: u32 = 100000;

pub const MOST_MINUTES: u32 = 20000;

// The longest restore time of a momentary loss, in minutes.
const LONGEST_MOMENTARY: u32 = 5;

// The places of each kind in a study and in a gate: as many as the most that can stand.
pub const COMPONENT_PLACES: usize = 12;

pub const GATE_PLACES: usize = 32;

pub const LOAD_PLACES: usize = 8;

pub const STATE_PLACES: usize = 4;

pub const TEST_PLACES: usize = 12;

pub const INPUT_PLACES: usize = 31;

pub const JOINT_STATE_PLACES: usize = 4096;

// One above the largest map of each kind of record.
pub const COMPONENT_MAPS: u8 = 16;

pub const GATE_MAPS: u8 = 8;

pub const LOAD_MAPS: u8 = 8;

// The loss gate of a load that is never lost: a number that no gate has.
pub const NEVER: u8 = 255;

// The bytes of the longest study that opens.
pub const LONGEST_STUDY: usize = 2023;

// The largest exponent whose exponential is given.
pub const FARTHEST: u64 = 20000000000;

// Whether a loss is momentary that is over after so many minutes.
#[tactic(auto, unfolding(crate::specs::Limits::momentary))]
pub fn is_momentary(minutes: u32) -> bool
    ensures { result ≡ momentary minutes }
{
    minutes <= LONGEST_MOMENTARY
}
