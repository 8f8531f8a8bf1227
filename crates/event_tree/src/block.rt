// A block of classes, one for each joint state of the components whose state counts stand beside them, and where paths
// go on in it.
ghost use Rattle.paths.specs.Blocks.{Block};

use crate::blank::ways_of;
use crate::parts::Fork;
use entries::Class;

// The state counts of some components, and the classes of their joint states.
#[derive(Clone, Copy)]
pub struct ClassBlock<'a> {
    pub counts: &'a [u8],
    pub classes: &'a [Class],
    pub ghost whole: { Block counts.now classes.now },
}

impl<'a> ClassBlock<'a> {
    ghost use Rattle.std.specs.Prelude.{◌≡◌, length, get_or, IfSome, IfNone};

    // The class where no component is left.
    #[inline]
    pub fn class(self) -> Class
        ensures { result ≡ get_or self.entry.classes.now 0 0 }
    {
        self.classes[0]
    }

    // The first component, where one is left.
    #[inline]
    pub fn fork(self) -> Option<Fork<'a>>
        ensures none { IfNone result (length self.entry.counts.now ≡ 0) }
        ensures some { IfSome result (λ f. f.block ≡ self.entry) }
    {
        let states = *self.counts.first()?;
        let size = self.classes.len() / states as usize;
        Some(Fork {
            block: self,
            ways: ways_of(states, size, self.classes),
            size,
        })
    }
}
