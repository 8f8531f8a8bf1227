// The report of bytes that do not open.
ghost use Rattle.std.specs.Prelude.{◌≡◌};
ghost use Rattle.rules.specs.Refusals.{row_of};
ghost use Rattle.answers.specs.Answers.{by_number};
ghost use Rattle.text.specs.Writer.{Room, Wrote};
ghost use Rattle.lent_text.specs.Lent.{reported, written};
ghost use Rattle.report_text.specs.Report.{refused_text};

use lent_text::hand_over;
use rules::Refusal;
use text::Writer;
use words::word;

// Room for the line of any refusal.
const REFUSED_BYTES: usize = 32;

// Writes the line of a refused study.
#[tactic(auto, using(text::proofs::Written::pieces), unfolding(crate::specs::Report::refused_text, lists::specs::Rows::joined))]
fn refused_text(refusal: Refusal, out: &mut Writer)
    requires { Room out.old (refused_text (row_of refusal)) }
    ensures { Wrote out.old (refused_text (row_of refusal)) out.new }
{
    out.put(b"REFUSED");
    out.field(u64::from(refusal.number()));
    out.put(b" ");
    out.put(word(refusal));
    out.put(b"\n");
}

// Hands over the line of a refused study. Refused by 18.
#[tactic(auto, using(crate::proofs::Fits::refused_line))]
pub fn refused_report(refusal: Refusal, text: &mut [u8]) -> Result<u32, Refusal>
    ensures answer { by_number result ≡ reported (refused_text (row_of refusal)) text.old }
    ensures text { text.new ≡ written (refused_text (row_of refusal)) text.old }
{
    let mut line = [0; REFUSED_BYTES];
    let mut out = Writer::new(&mut line);
    refused_text(refusal, &mut out);
    let size = out.size();
    hand_over(&line[..size], text)
}
