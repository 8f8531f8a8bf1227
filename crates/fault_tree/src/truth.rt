// The truth of gates in a joint state, told by gates without repeats.
ghost use Rattle.std.specs.Prelude.{ℕ, ◌<◌, false, ◌≡◌, get_or};
ghost use Rattle.lists.specs.Bits.{bit};
ghost use Rattle.rules.specs.Limits.{mask_bits};
ghost use Rattle.fault_tree.specs.Readable.{TestsReadable, InputsReadable, GateReadable};
ghost use Rattle.fault_tree.specs.Told.{tests_told, inputs_told, gate_told};

use study::Gate;

// Whether a mask has a component's state.
fn test_true(mask: u8, state: u8) -> bool
    requires { state < mask_bits }
    ensures { result ≡ bit mask state }
{
    (mask >> state) & 1 == 1
}

// How many tests of a gate are true in joint state x.
#[tactic(auto, unfolding(crate::specs::Told::tests_told))]
fn true_tests(g: &Gate, x: &[u8]) -> u32
    requires { TestsReadable g.now x.now }
    ensures { result ≡ tests_told g.now x.now }
{
    let mut n = 0;
    for j in 0..g.tests as usize {
        n += test_true(g.mask[j], x[g.component[j] as usize]) as u32;
    }
    n
}

// How many gate inputs of a gate are true, where these are the truths of the gates before it.
#[tactic(auto, unfolding(crate::specs::Told::inputs_told))]
fn true_inputs(g: &Gate, truths: &[bool]) -> u32
    requires { InputsReadable g.now truths.now }
    ensures { result ≡ inputs_told g.now (λ (k : ℕ). get_or truths.now k false) }
{
    let mut n = 0;
    for j in 0..g.gates as usize {
        n += truths[g.input[j] as usize] as u32;
    }
    n
}

// Whether a gate is true in joint state x, where these are the truths of the gates before it.
#[tactic(auto, unfolding(crate::specs::Told::gate_told))]
pub fn gate_true(g: &Gate, x: &[u8], truths: &[bool]) -> bool
    requires { GateReadable g.now x.now truths.now }
    ensures { result ≡ gate_told g.now x.now (λ (k : ℕ). get_or truths.now k false) }
{
    u32::from(g.threshold) <= true_tests(g, x) + true_inputs(g, truths)
}
