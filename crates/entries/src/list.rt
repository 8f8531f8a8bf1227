// Reading the entries of a list.
ghost use Rattle.std.specs.Prelude.{◌+◌, ◌*◌, ◌<◌, ◌≤◌, ◌≡◌, length};
ghost use Rattle.rules.specs.Limits.{most_components, most_joint_states};
ghost use Rattle.entries.specs.Entries.{byte_values, entry_bytes, entry_at, class_borne};
ghost use Rattle.entries.specs.Lists.{EntryIn};

use crate::class::{CLASS_BYTES, Class, class_from};

// The bytes of an entry of n components.
pub fn entry_bytes(n: usize) -> usize
    requires { n < byte_values }
    ensures { result ≡ entry_bytes n }
{
    n + CLASS_BYTES
}

// The bytes that a list of so many entries of n components takes.
pub fn list_need(n: usize, paths: u32) -> usize
    requires n_le_most_components { n ≤ most_components }
    requires paths_le_most_joint_states { paths ≤ most_joint_states }
    ensures { result ≡ paths * entry_bytes n }
{
    paths as usize * entry_bytes(n)
}

// Entry k of a list whose entries have n components.
pub fn entry_at(list: &[u8], n: usize, k: usize) -> &[u8]
    requires { EntryIn list.now n k }
    ensures { result.now ≡ entry_at n list.now k }
{
    let width = n + CLASS_BYTES;
    let at = k * width;
    &list[at..at + width]
}

// The class that an entry of n components bears.
#[tactic(auto, unfolding(crate::specs::Entries::class_borne))]
pub fn class_of(n: usize, entry: &[u8]) -> Class
    requires { entry_bytes n ≤ length entry.now }
    ensures { result ≡ class_borne n entry.now }
{
    class_from(entry, n)
}

// The class that entry k of a list bears.
pub fn class_at(list: &[u8], n: usize, k: usize) -> Class
    requires { EntryIn list.now n k }
    ensures { result ≡ class_borne n (entry_at n list.now k) }
{
    class_of(n, entry_at(list, n, k))
}
