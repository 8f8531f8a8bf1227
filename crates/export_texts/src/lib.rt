// Texts for C: the report of a study's bytes, and the word of a refusal.
#![tactic(auto)]

ghost use Rattle.export_texts.specs.Texts.{Reports, Words};

use export_answers::answer_count;

// Writes the report of a study's bytes at the front of a buffer; answers how many bytes it has. Where the study opens,
// the bounds of its classes go to the front of two slices. Refused by 18.
pub fn report(bytes: &[u8], text: &mut [u8], lower: &mut [u64], upper: &mut [u64]) -> i64
    ensures { Reports bytes.now text.old lower.old upper.old
        text.new lower.new upper.new result }
{
    answer_count(report_text::report(bytes, text, lower, upper))
}

// Writes the word of a refusal at the front of a buffer; answers how many bytes it has, 0 for a number that the table
// lacks. Refused by 18.
pub fn refusal_word(number: u8, text: &mut [u8]) -> i64
    ensures { Words number text.old text.new result }
{
    answer_count(words::refusal_word(number, text))
}
