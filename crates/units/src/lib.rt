// Fixed-point probability: whole billionths, how many of them make certainty, and products and quotients that are
// rounded down or up.
#![tactic(auto)]

mod bounds;

ghost use Rattle.std.specs.Prelude.{◌<◌, ◌≤◌, ◌≡◌};
ghost use Rattle.units.specs.One.{one};
ghost use Rattle.units.specs.Rounding.{up, scale as rounding_scale, quotient_down, quotient_up};

pub use bounds::Enclosure;

// Certainty in units of a billionth.
pub const ONE: u32 = 1000000000;

// A direction to round in, by what is added before a division by one: at most one less than the divisor.
#[derive(Clone, Copy)]
pub struct Direction {
    pub added: u64,
    pub ghost below_one: { added ≤ up },
}

// Nothing rounds down, one less than the divisor rounds up.
pub const DOWN: Direction = Direction { added: 0 };

pub const UP: Direction = Direction {
    added: ONE as u64 - 1,
};

// A number of units times a probability, over one.
pub fn scale(rounding: Direction, a: u64, p: u64) -> u64
    requires units { a ≤ one }
    requires probability { p ≤ one }
    ensures scaled { result ≡ rounding_scale rounding.added a p }
    ensures most { result ≤ one }
{
    (a * p + rounding.added) / u64::from(ONE)
}

// A quotient, rounded down.
pub fn quotient_down(a: u64, b: u64) -> u64
    requires { 0 < b }
    ensures { result ≡ quotient_down a b }
{
    a / b
}

// A quotient, rounded up.
pub fn quotient_up(a: u64, b: u64) -> u64
    requires { 0 < b }
    ensures { result ≡ quotient_up a b }
{
    a.div_ceil(b)
}
