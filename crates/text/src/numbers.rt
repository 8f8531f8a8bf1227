// Numbers in decimal.
ghost use Rattle.std.specs.Prelude.{◌<◌, [], ◌∷◌};
ghost use Rattle.text.specs.Lines.{field};
ghost use Rattle.text.specs.Numbers.{digit, decimal};
ghost use Rattle.text.specs.Writer.{Room, Wrote};

use crate::writer::Writer;

// The byte of the digit 0.
pub const ZERO: u8 = b'0';

impl Writer<'_> {
    // Writes a digit.
    fn digit(&mut self, n: u8)
        requires room { Room self.old (digit n ∷ []) }
        requires one { n < 10 }
        ensures { Wrote self.old (digit n ∷ []) self.new }
    {
        self.put(&[ZERO + n]);
    }

    // Writes a number, the highest digit first.
    #[tactic(auto, using(crate::proofs::Written::pieces, crate::proofs::Decimals::decimal_more, crate::proofs::Decimals::decimal_one))]
    fn decimal(&mut self, n: u64)
        requires { Room self.old (decimal n) }
        ensures { Wrote self.old (decimal n) self.new }
    {
        if n < 10 {
            return self.digit(n as u8);
        }
        self.decimal(n / 10);
        self.digit((n % 10) as u8);
    }

    // Writes a space and a number.
    #[tactic(auto, using(crate::proofs::Written::pieces), unfolding(crate::specs::Lines::field, lists::specs::Rows::joined))]
    pub fn field(&mut self, n: u64)
        requires { Room self.old (field n) }
        ensures { Wrote self.old (field n) self.new }
    {
        self.put(b" ");
        self.decimal(n);
    }
}
