// Opens a study: bytes to a study, refused by the first breach. Not for callers from outside: those call `planning`.
#![tactic(auto)]

mod components;
mod gates;
mod loads;

ghost use Rattle.std.specs.Prelude.{◌≡◌, ◌≤◌, IfOk};
ghost use Rattle.reading.specs.Reader.{read_of, read_into};
ghost use Rattle.study.specs.Zero.{zero_study};
ghost use Rattle.answers.specs.Answers.{study_answer};
ghost use Rattle.opening.specs.Opening.{count, opened};
ghost use Rattle.opening.specs.Places.{study_in_order};

use components::read_components;
use gates::read_gates;
use loads::read_loads;
use reading::Cursor;
use rules::{MOST_COMPONENTS, MOST_GATES, MOST_LOADS, Refusal, count_fault, left_fault};
use study::{Study, state_counts, zero_study};

// One of the first three bytes, which is in range.
#[tactic(auto, unfolding(crate::specs::Opening::count))]
fn read_count(bytes: &mut Cursor, most: u8) -> Result<u8, Refusal>
    ensures reads { read_of result bytes.new.rest.now ≡ count most bytes.old.rest.now }
    ensures kept { IfOk result (λ n. n ≤ most) }
{
    let n = bytes.byte()?;
    count_fault(most, n)?;
    Ok(n)
}

// The three counts and the records of each kind, over a study of zeros. The gates are read with their inputs in order.
#[tactic(auto, unfolding(crate::specs::Places::study_in_order))]
fn read_study(bytes: &mut Cursor, t: &mut Study) -> Result<(), Refusal>
    requires { t.old ≡ zero_study }
    ensures { read_into result t.new bytes.new.rest.now ≡ study_in_order bytes.old.rest.now }
{
    t.components = read_count(bytes, MOST_COMPONENTS)?;
    t.gates = read_count(bytes, MOST_GATES)?;
    t.loads = read_count(bytes, MOST_LOADS)?;
    read_components(bytes, t.components, &mut t.component)?;
    let counts = state_counts(&t.component);
    read_gates(
        bytes,
        &counts[..usize::from(t.components)],
        t.gates,
        &mut t.gate,
    )?;
    read_loads(bytes, t.gates, t.loads, &mut t.load)
}

// Opens a study: the counts, the records of each kind, and the end of the bytes.
pub fn open(bytes: &[u8]) -> Result<Study, Refusal>
    ensures { study_answer zero_study result ≡ opened bytes.now }
{
    let mut bytes = Cursor { rest: bytes };
    let mut t = zero_study();
    read_study(&mut bytes, &mut t)?;
    left_fault(bytes.rest.len())?;
    Ok(t)
}
