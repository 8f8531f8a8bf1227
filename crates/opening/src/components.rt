// The component records of a study.
ghost use Rattle.std.specs.Prelude.{◌≡◌, ◌*◌, ◌≤◌, IfOk};
ghost use Rattle.rules.specs.Limits.{most_components, most_joint_states};
ghost use Rattle.reading.specs.Reader.{read_of, read_into, repeat};
ghost use Rattle.opening.specs.Opening.{component_after, component_record, placing};

use component_record::read_component;
use reading::Cursor;
use rules::{COMPONENT_PLACES, Refusal, width_fault};
use study::Component;

// A component after others that have so many joint states; with it they stay within the limit.
#[tactic(auto, unfolding(crate::specs::Opening::component_after))]
fn read_component_after(bytes: &mut Cursor, joint: u32) -> Result<Component, Refusal>
    requires { joint ≤ most_joint_states }
    ensures reads { read_of result bytes.new.rest.now ≡ component_after joint bytes.old.rest.now }
    ensures kept { IfOk result (λ c. joint * c.states ≤ most_joint_states) }
{
    let c = read_component(bytes)?;
    width_fault(joint * u32::from(c.states))?;
    Ok(c)
}

// So many component records, each in its place.
pub fn read_components(
    bytes: &mut Cursor,
    n: u8,
    component: &mut [Component; COMPONENT_PLACES],
) -> Result<(), Refusal>
    requires { n ≤ most_components }
    ensures { read_into result component.new bytes.new.rest.now ≡ repeat (placing component_record) n component.old bytes.old.rest.now }
{
    let mut joint: u32 = 1;
    for i in 0..usize::from(n) {
        let c = read_component_after(bytes, joint)?;
        component[i] = c;
        joint *= u32::from(c.states);
    }
    Ok(())
}
