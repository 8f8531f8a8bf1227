// Lines of words, numbers and bounds.
ghost use Rattle.text.specs.Lines.{number_line, bounds_end, bounds_line, item_line};
ghost use Rattle.text.specs.Writer.{Room, Wrote};

use crate::writer::Writer;

impl Writer<'_> {
    // Writes a word and a number.
    #[tactic(auto, using(crate::proofs::Written::pieces), unfolding(crate::specs::Lines::number_line, lists::specs::Rows::joined))]
    pub fn number_line(&mut self, word: &[u8], n: u64)
        requires { Room self.old (number_line word.now n) }
        ensures { Wrote self.old (number_line word.now n) self.new }
    {
        self.put(word);
        self.field(n);
        self.put(b"\n");
    }

    // Writes the two bounds that end a line.
    #[tactic(auto, using(crate::proofs::Written::pieces), unfolding(crate::specs::Lines::bounds_end, lists::specs::Rows::joined))]
    pub fn bounds_end(&mut self, lower: u64, upper: u64)
        requires { Room self.old (bounds_end lower upper) }
        ensures { Wrote self.old (bounds_end lower upper) self.new }
    {
        self.field(lower);
        self.field(upper);
        self.put(b"\n");
    }

    // Writes a word and two bounds.
    #[tactic(auto, using(crate::proofs::Written::pieces), unfolding(crate::specs::Lines::bounds_line, lists::specs::Rows::joined))]
    pub fn bounds_line(&mut self, word: &[u8], lower: u64, upper: u64)
        requires { Room self.old (bounds_line word.now lower upper) }
        ensures { Wrote self.old (bounds_line word.now lower upper) self.new }
    {
        self.put(word);
        self.bounds_end(lower, upper);
    }

    // Writes a word, the number of an item, and its two bounds.
    #[tactic(auto, using(crate::proofs::Written::pieces), unfolding(crate::specs::Lines::item_line, lists::specs::Rows::joined))]
    pub fn item_line(&mut self, word: &[u8], n: u64, lower: u64, upper: u64)
        requires { Room self.old (item_line word.now n lower upper) }
        ensures { Wrote self.old (item_line word.now n lower upper) self.new }
    {
        self.put(word);
        self.field(n);
        self.bounds_end(lower, upper);
    }
}
