// How paths go on at a component: in one way where it is blank, or else in one for each of its states.
ghost use Rattle.std.specs.Prelude.{◌*◌, ◌<◌, ◌≤◌, ◌≡◌, length};
ghost use Rattle.paths.specs.Paths.{is_blank};
ghost use Rattle.paths.specs.Ways.{mark};
ghost use Rattle.event_tree.specs.Ways.{number_in, blank_in, ways_of};

use entries::{BLANK, Class, classes_from, same_classes};

// The ways on at a component, which has so many states where it is not blank.
#[derive(Clone, Copy)]
pub enum Ways {
    Blank,
    States(u8),
}

impl Ways {
    // How many ways there are.
    #[inline]
    pub fn number(self) -> u8
        ensures { result ≡ number_in self }
    {
        match self {
            Ways::Blank => 1,
            Ways::States(states) => states,
        }
    }

    // What a path's entry holds for the component on way s.
    #[tactic(auto, unfolding(paths::specs::Ways::mark))]
    #[inline]
    pub fn mark(self, s: u8) -> u8
        ensures { result ≡ mark (blank_in self) s }
    {
        match self {
            Ways::Blank => BLANK,
            Ways::States(_) => s,
        }
    }
}

// Whether a component of so many states is blank in a block that has `size` classes for each of them.
fn is_blank(states: u8, size: usize, block: &[Class]) -> bool
    requires block_len { length block.now ≡ states * size }
    requires states_nonzero { 0 < states }
    ensures { result ≡ is_blank states size block.now }
{
    let first = &block[..size];
    let mut blank = true;
    for s in 1..states {
        blank &= same_classes(first, classes_from(block, s as usize * size, size));
    }
    blank
}

// The ways on at such a component.
#[inline]
pub fn ways_of(states: u8, size: usize, block: &[Class]) -> Ways
    requires block_len { length block.now ≡ states * size }
    requires states_nonzero { 0 < states }
    ensures { result ≡ ways_of (is_blank states size block.now) states }
{
    if is_blank(states, size, block) {
        return Ways::Blank;
    }
    Ways::States(states)
}
