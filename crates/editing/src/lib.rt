// The edits of an opened study, each of one field, in place. A refused edit leaves the study as it was.
#![tactic(auto)]

ghost use Rattle.std.specs.Prelude.{◌<◌, ◌≡◌, OnOk};
ghost use Rattle.rules.specs.Limits.{most_components, most_loads};
ghost use Rattle.rules.specs.Refusals.{breach_of};
ghost use Rattle.editing.specs.Edits.{edit_answer, component_edit_fault, probabilities_set, load_edit_fault, customers_set, minutes_set};

use rules::{MOST_CUSTOMERS, MOST_MINUTES, Refusal, item_fault, size_fault, unsound_fault};
use soundness::{is_sound, probabilities_fault};
use study::{Component, Study};

// The first breach of an edit of component i's probabilities; without one there is such a component.
#[tactic(auto, using(crate::proofs::Edited::edits), unfolding(crate::specs::Edits::component_edit_fault))]
fn component_edit_fault(t: &Study, i: usize, p1: u32, p2: u32, p3: u32) -> Result<(), Refusal>
    ensures judged { breach_of result ≡ component_edit_fault t.now i p1 p2 p3 }
    ensures there { OnOk result (i < most_components) }
{
    unsound_fault(is_sound(t))?;
    item_fault(t.components, i)?;
    probabilities_fault(t.component[i].states, p1, p2, p3)
}

// Sets a component's probabilities of states 1 to 3. Refused by 16, 17, 5, 6, in this order.
#[tactic(auto, using(answers::proofs::ByNumber::by_number), unfolding(crate::specs::Edits::probabilities_set, crate::specs::Edits::edited))]
pub fn set_probabilities(
    study: &mut Study,
    component: usize,
    p1: u32,
    p2: u32,
    p3: u32,
) -> Result<(), Refusal>
    ensures { edit_answer result study.new ≡ probabilities_set study.old component p1 p2 p3 }
{
    component_edit_fault(study, component, p1, p2, p3)?;
    let c = &mut study.component[component];
    *c = Component { p1, p2, p3, ..*c };
    Ok(())
}

// The first breach of an edit of load j to a number of at most `most`; without one there is such a load.
#[tactic(auto, using(crate::proofs::Edited::edits), unfolding(crate::specs::Edits::load_edit_fault))]
fn load_edit_fault(t: &Study, j: usize, most: u32, n: u32) -> Result<(), Refusal>
    ensures judged { breach_of result ≡ load_edit_fault t.now j most n }
    ensures there { OnOk result (j < most_loads) }
{
    unsound_fault(is_sound(t))?;
    item_fault(t.loads, j)?;
    size_fault(most, n)
}

// Sets the customers of a load. Refused by 16, 17, 14, in this order.
#[tactic(auto, using(answers::proofs::ByNumber::by_number), unfolding(crate::specs::Edits::customers_set, crate::specs::Edits::edited))]
pub fn set_customers(study: &mut Study, load: usize, customers: u32) -> Result<(), Refusal>
    ensures { edit_answer result study.new ≡ customers_set study.old load customers }
{
    load_edit_fault(study, load, MOST_CUSTOMERS, customers)?;
    study.load[load].customers = customers;
    Ok(())
}

// Sets the minutes of a load's restore time. Refused by 16, 17, 14, in this order.
#[tactic(auto, using(answers::proofs::ByNumber::by_number), unfolding(crate::specs::Edits::minutes_set, crate::specs::Edits::edited))]
pub fn set_minutes(study: &mut Study, load: usize, minutes: u32) -> Result<(), Refusal>
    ensures { edit_answer result study.new ≡ minutes_set study.old load minutes }
{
    load_edit_fault(study, load, MOST_MINUTES, minutes)?;
    study.load[load].minutes = minutes;
    Ok(())
}
