// The interruption figures of an opened study for C, by its gates or by a drawn tree, each in two numbers.
ghost use Rattle.std.specs.Prelude.{◌+◌, ◌≡◌};
ghost use Rattle.answers.specs.Told.{result as result_told, caidi_values};
ghost use Rattle.meaning.specs.Sources.{meaning_of};
ghost use Rattle.export_answers.specs.Answers.{pairs, two, left_by};
ghost use Rattle.export_losses.specs.Figures.{GivesFigures};

use answers::Caidi;
use export_answers::{counted, hand_pair, refused};
use meaning::Source;
use study_image::read_image;

// Hands CAIDI over where it is stated; answers how many figures are stated, the three others among them.
fn hand_caidi(caidi: Caidi, lower: &mut u64, upper: &mut u64) -> u32
    ensures stated { result ≡ 3 + pairs (caidi_values caidi) }
    ensures left { two lower.new upper.new
        ≡ left_by (result_told (caidi_values caidi)) (two lower.old upper.old) }
{
    match caidi {
        Caidi::Bounds(pair) => {
            hand_pair(pair, lower, upper);
            4
        }
        Caidi::NotStated => 3,
    }
}

// SAIFI, SAIDI, CAIDI and MAIFI, lower and upper bound of each in a number of its own; answers how many are stated,
// since CAIDI may not be. Refused by 16, then 20, 21 or 22, then 19.
pub fn figures(
    study: &[u8],
    source: Source,
    saifi_lower: &mut u64,
    saifi_upper: &mut u64,
    saidi_lower: &mut u64,
    saidi_upper: &mut u64,
    caidi_lower: &mut u64,
    caidi_upper: &mut u64,
    maifi_lower: &mut u64,
    maifi_upper: &mut u64,
) -> i64
    ensures { GivesFigures (meaning_of source.entry) study.now
        (two saifi_lower.old saifi_upper.old)
        (two saidi_lower.old saidi_upper.old)
        (two caidi_lower.old caidi_upper.old)
        (two maifi_lower.old maifi_upper.old)
        (two saifi_lower.new saifi_upper.new)
        (two saidi_lower.new saidi_upper.new)
        (two caidi_lower.new caidi_upper.new)
        (two maifi_lower.new maifi_upper.new) result }
{
    match loss_calls::figures(&read_image(study), source) {
        Ok(figures) => {
            hand_pair(figures.saifi, saifi_lower, saifi_upper);
            hand_pair(figures.saidi, saidi_lower, saidi_upper);
            hand_pair(figures.maifi, maifi_lower, maifi_upper);
            counted(hand_caidi(figures.caidi, caidi_lower, caidi_upper))
        }
        Err(refusal) => refused(refusal),
    }
}
