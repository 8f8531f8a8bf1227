// Bounds for the exponential of minus an exponent: a product of a factor for each bit of the exponent, the lower
// bound rounded down and the upper one up.
#![tactic(auto)]

ghost use Rattle.std.specs.Prelude.{◌<◌, ◌≤◌, ◌≡◌};
ghost use Rattle.units.specs.One.{one};
ghost use Rattle.exponential.specs.Worked.{grain, raised, line as line_of, Units, times as times_of, survival_of};

use units::{DOWN, Enclosure, ONE, UP, scale};

// What is left of an exponent below it is bounded by a straight line.
const GRAIN: u64 = 16384;

// How many powers of two have a factor.
const POWERS: usize = 21;

// The exponentials of minus 2^14, 2^15, .. , 2^34 units, in units and rounded down.
const FACTORS: [u64; POWERS] = [
    999983616, 999967232, 999934466, 999868936, 999737890, 999475849, 998951973, 997905045,
    995814479, 991646478, 983362737, 967002273, 935093397, 874399662, 764574769, 584574578,
    341727438, 116777642, 13637017, 185968, 34,
];

// A unit more, and at most one.
#[tactic(auto, unfolding(crate::specs::Worked::raised))]
fn raise(bound: u64) -> u64
    ensures raised { result ≡ raised bound }
    ensures most { result ≤ one }
{
    bound.saturating_add(1).min(u64::from(ONE))
}

// The bounds of an exponent below the grain.
#[tactic(auto, unfolding(crate::specs::Worked::line))]
fn line(rest: u64) -> Enclosure
    requires { rest < grain }
    ensures line { result ≡ line_of rest }
    ensures units { Units result }
{
    let lower = u64::from(ONE) - rest;
    Enclosure {
        lower,
        upper: raise(lower),
    }
}

// The bounds times the factor of a bit, where the bit stands.
#[tactic(auto, unfolding(crate::specs::Worked::times))]
fn times(bit: u64, factor: u64, b: Enclosure) -> Enclosure
    requires units { Units b }
    requires less { factor < one }
    ensures product { result ≡ times_of bit factor b }
    ensures units { Units result }
{
    if bit == 0 {
        return b;
    }
    Enclosure {
        lower: scale(DOWN, b.lower, factor),
        upper: scale(UP, b.upper, factor + 1),
    }
}

// Bounds for the exponential of minus an exponent.
pub fn survival(exponent: u64) -> Enclosure
    ensures pair { result ≡ survival_of exponent }
    ensures units { Units result }
{
    let mut b = line(exponent % GRAIN);
    let mut bits = exponent / GRAIN;
    for factor in FACTORS {
        b = times(bits % 2, factor, b);
        bits /= 2;
    }
    Enclosure {
        upper: raise(b.upper),
        ..b
    }
}
