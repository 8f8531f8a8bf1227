// What a call answers in C: a count or 0, or the number of its refusal below 0; and a pair of bounds in two numbers.
#![tactic(auto)]

ghost use Rattle.std.specs.Prelude.{◌≡◌, pos};
ghost use Rattle.answers.specs.Answers.{by_row};
ghost use Rattle.answers.specs.Told.{outcome_told, listing_told, count_told};
ghost use Rattle.export_answers.specs.Answers.{below, answered_by, done, count, two};

use answers::{Enclosure, PathCount};
use rules::Row;

// A count.
pub fn counted(number: u32) -> i64
    ensures { result ≡ pos number }
{
    i64::from(number)
}

// A refusal by the number of its row, below 0; 0 where there is none.
pub fn refused<E: Row>(refusal: E) -> i64
    ensures { result ≡ below (E.row_number refusal) }
{
    -i64::from(refusal.row_number())
}

// The answer of a call that counts what it wrote.
pub fn answer_count<E: Row>(answer: Result<u32, E>) -> i64
    ensures { result ≡ answered_by count (count_told (by_row E.row_number answer)) }
{
    match answer {
        Ok(number) => counted(number),
        Err(refusal) => refused(refusal),
    }
}

// The answer of a call that only fills what it was lent.
pub fn answer_outcome<E: Row>(outcome: Result<(), E>) -> i64
    ensures { result ≡ answered_by done (outcome_told (by_row E.row_number outcome)) }
{
    answer_count(outcome.map(|()| 0))
}

// The answer of the call for the list of paths.
pub fn answer_listing<E: Row>(listing: Result<PathCount, E>) -> i64
    ensures { result ≡ answered_by count (listing_told (by_row E.row_number listing)) }
{
    answer_count(listing.map(|count| count.paths))
}

// Hands a pair of bounds over, in two numbers.
pub fn hand_pair(pair: Enclosure, lower: &mut u64, upper: &mut u64)
    ensures { two lower.new upper.new ≡ pair }
{
    *lower = pair.lower;
    *upper = pair.upper;
}
