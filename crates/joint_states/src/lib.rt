// Joint states: a state for each component, in order, component 0 varying slowest. Not for callers from outside: those
// call `planning`.
#![tactic(auto)]

ghost use Rattle.std.specs.Prelude.{◌+◌, ◌%◌, ◌≤◌, ◌≡◌};
ghost use Rattle.lists.specs.Product.{product};
ghost use Rattle.joint_states.specs.JointStates.{JointState, number_of, most_numbered};

// Moves a joint state on to the one with the next number; behind the last comes the first again.
pub fn next_joint_state(counts: &[u8], x: &mut [u8])
    requires { JointState counts.now x.old }
    ensures joint_state { JointState counts.now x.new }
    ensures x_after { number_of counts.now x.new ≡ (number_of counts.now x.old + 1) % product counts.now }
{
    for i in (0..counts.len()).rev() {
        if x[i] + 1 < counts[i] {
            x[i] += 1;
            return;
        }
        x[i] = 0;
    }
}

// The number of a joint state: the place of its class in a class table. What is read of the components before one
// weighs its state count.
pub fn number_of(counts: &[u8], x: &[u8]) -> usize
    requires joint_state { JointState counts.now x.now }
    requires counts_bound { product counts.now ≤ most_numbered }
    ensures { result ≡ number_of counts.now x.now }
{
    let mut number = 0;
    for i in 0..counts.len() {
        number = number * usize::from(counts[i]) + usize::from(x[i]);
    }
    number
}
