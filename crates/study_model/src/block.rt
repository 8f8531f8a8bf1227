// What is in use of arrays that have room for any model: the state counts of its components.
ghost use Rattle.std.specs.Prelude.{◌≤◌, ◌≡◌, length, take};

// The state counts of so many components, in front of those of all places.
pub fn counts_in_use(components: u8, all: &[u8]) -> &[u8]
    requires { components ≤ length all.now }
    ensures { result.now ≡ take components all.now }
{
    &all[..usize::from(components)]
}
