// The numbers of a line: what parts them, and what a call answered.
ghost use Rattle.std.specs.Prelude.{◌≡◌};
ghost use Rattle.rules.specs.Refusals.{breach_of};

use rules::Refusal;
use std::fmt;

// What stands behind a number of a line: a blank, or the end of the line.
pub fn separator(last: bool) -> char {
    if last { '\n' } else { ' ' }
}

// The number of the refusal, and 0 where there is none.
pub fn refusal_number<T>(answer: &Result<T, Refusal>) -> u8
    ensures { result ≡ breach_of answer.now }
{
    match answer {
        Ok(_) => 0,
        Err(refusal) => refusal.number(),
    }
}

// The refusal, 0 for none, and how many paths or bytes were written, 0 where refused.
#[derive(Clone, Copy)]
pub struct Counted(pub Result<u32, Refusal>);

impl fmt::Display for Counted {
    fn fmt<W: fmt::Write>(&self, f: &mut fmt::Formatter<W>) -> fmt::Result {
        match self.0 {
            Ok(count) => write!(f, "0 {count}"),
            Err(refusal) => write!(f, "{} 0", refusal.number()),
        }
    }
}
