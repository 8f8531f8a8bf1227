// The lines of the figures.
ghost use Rattle.text.specs.Writer.{Room, Wrote};
ghost use Rattle.answers.specs.Answers.{by_number};
ghost use Rattle.report_lines.specs.Figures.{caidi_line, all_figures, figure_lines};

use answers::{Caidi, Figures};
use rules::Refusal;
use text::Writer;

// Writes the line of CAIDI.
#[tactic(auto, unfolding(crate::specs::Figures::caidi_line))]
fn caidi_line(out: &mut Writer, caidi: Caidi)
    requires { Room out.old (caidi_line caidi) }
    ensures { Wrote out.old (caidi_line caidi) out.new }
{
    match caidi {
        Caidi::Bounds(b) => out.bounds_line(b"CAIDI", b.lower, b.upper),
        Caidi::NotStated => out.put(b"CAIDI none\n"),
    }
}

// Writes the lines of all figures.
#[tactic(auto, using(text::proofs::Written::pieces), unfolding(crate::specs::Figures::all_figures, lists::specs::Rows::joined))]
fn all_figures(out: &mut Writer, f: &Figures)
    requires { Room out.old (all_figures f.now) }
    ensures { Wrote out.old (all_figures f.now) out.new }
{
    out.bounds_line(b"SAIFI", f.saifi.lower, f.saifi.upper);
    out.bounds_line(b"SAIDI", f.saidi.lower, f.saidi.upper);
    caidi_line(out, f.caidi);
    out.bounds_line(b"MAIFI", f.maifi.lower, f.maifi.upper);
}

// Writes the lines of the figures, or the one that stands in their place.
#[tactic(auto, unfolding(crate::specs::Figures::figure_lines))]
pub fn figure_lines(out: &mut Writer, answer: Result<Figures, Refusal>)
    requires { Room out.old (figure_lines (by_number answer)) }
    ensures { Wrote out.old (figure_lines (by_number answer)) out.new }
{
    match answer {
        Ok(f) => all_figures(out, &f),
        Err(refusal) => out.number_line(b"INDICES", u64::from(refusal.number())),
    }
}
