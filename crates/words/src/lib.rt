// The words of the refusal table.
#![tactic(auto)]

ghost use Rattle.std.specs.Prelude.{◌≡◌};
ghost use Rattle.rules.specs.Refusals.{row_of};
ghost use Rattle.answers.specs.Answers.{by_number};
ghost use Rattle.lent_text.specs.Lent.{reported, written};
ghost use Rattle.words.specs.Words.{refusal_word};

use lent_text::hand_over;
use rules::Refusal;

// The word of a refusal.
#[tactic(auto, unfolding(crate::specs::Words::refusal_word, crate::specs::Words::refusal_words))]
pub fn word(refusal: Refusal) -> &'static [u8]
    ensures { result.now ≡ refusal_word (row_of refusal) }
{
    match refusal {
        Refusal::Short => b"short",
        Refusal::Counts => b"counts",
        Refusal::StrayBit => b"stray bit",
        Refusal::States => b"states",
        Refusal::NoState => b"no state",
        Refusal::OverOne => b"over one",
        Refusal::TooWide => b"too wide",
        Refusal::Inputs => b"inputs",
        Refusal::NoComponent => b"no component",
        Refusal::Mask => b"mask",
        Refusal::GateAhead => b"gate ahead",
        Refusal::Threshold => b"threshold",
        Refusal::NoGate => b"no gate",
        Refusal::LoadSize => b"load size",
        Refusal::LeftOver => b"left over",
        Refusal::Unsound => b"unsound",
        Refusal::NoItem => b"no item",
        Refusal::NoRoom => b"no room",
        Refusal::NoCustomers => b"no customers",
        Refusal::Node => b"node",
        Refusal::BadEnd => b"bad end",
        Refusal::Leaf => b"leaf",
        Refusal::TooFar => b"too far",
    }
}

// The word of the refusal with a number; none for a number that the table lacks.
#[tactic(auto, using(crate::proofs::Worded::unnumbered))]
pub fn word_of_row(number: u8) -> &'static [u8]
    ensures { result.now ≡ refusal_word number }
{
    match Refusal::numbered(number) {
        Some(refusal) => word(refusal),
        None => b"",
    }
}

// Writes the word of a refusal at the front of a lent buffer, and answers how many bytes it has: 0 for a number that
// the table lacks. Refused by 18.
#[tactic(auto, using(crate::proofs::Worded::word_short))]
pub fn refusal_word(number: u8, text: &mut [u8]) -> Result<u32, Refusal>
    ensures answer { by_number result ≡ reported (refusal_word number) text.old }
    ensures buffer { text.new ≡ written (refusal_word number) text.old }
{
    hand_over(word_of_row(number), text)
}
