// The marks of a path: what its entry holds for each component.
ghost use Rattle.std.specs.Prelude.{◌≡◌, length};
ghost use Rattle.rules.specs.Limits.{most_components};

use rules::COMPONENT_PLACES;

// Room for the marks of all components.
pub fn no_marks() -> [u8; COMPONENT_PLACES]
    ensures { most_components ≡ length result }
{
    [0; COMPONENT_PLACES]
}
