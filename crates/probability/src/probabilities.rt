// Reading a table of probabilities, which has four places for each component.
ghost use Rattle.std.specs.Prelude.{◌*◌, ◌<◌, ◌≤◌, ◌≡◌, length, take};
ghost use Rattle.rules.specs.Limits.{most_components, most_states};
ghost use Rattle.probability.specs.Probabilities.{probability_at};

use rules::STATE_PLACES;

// The probability of state s of component i; 0 for one that is not in the table.
pub fn probability_at(probabilities: &[u32], i: usize, s: u8) -> u32
    requires { i < most_components }
    ensures { result ≡ probability_at probabilities.now i s }
{
    let place = i * STATE_PLACES + usize::from(s);
    probabilities.get(place).copied().unwrap_or(0)
}

// The part of a table that belongs to its first n components.
pub fn first_components(table: &[u32], n: usize) -> &[u32]
    requires { n * most_states ≤ length table.now }
    ensures { result.now ≡ take (n * most_states) table.now }
{
    &table[..n * STATE_PLACES]
}
