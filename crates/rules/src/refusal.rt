// The refusals of the package: each is a row of the refusal table, by whose number callers in other languages and the
// papers know it.
ghost use Rattle.std.specs.Prelude.{◌≡◌, ℕ};
ghost use Rattle.rules.specs.Refusals.{row_of, Numbered};

// What says by which row something is refused: a refusal, or the number of a row, whether or not the table has it.
pub trait Row: Copy {
    ghost row_number: { Self → ℕ };

    fn row_number(self) -> u8
        ensures { result ≡ row_number self };
}

impl Row for u8 {
    ghost row_number = { λ number. number };

    fn row_number(self) -> u8 {
        self
    }
}

// Why something is refused.
#[derive(Clone, Copy, Debug, PartialEq, Eq)]
pub enum Refusal {
    Short = 1,
    Counts,
    StrayBit,
    States,
    NoState,
    OverOne,
    TooWide,
    Inputs,
    NoComponent,
    Mask,
    GateAhead,
    Threshold,
    NoGate,
    LoadSize,
    LeftOver,
    Unsound,
    NoItem,
    NoRoom,
    NoCustomers,
    Node,
    BadEnd,
    Leaf,
    TooFar,
}

impl Refusal {
    // The number of its row.
    pub fn number(self) -> u8
        ensures { result ≡ row_of self }
    {
        self as u8
    }

    // The refusal whose row has this number; none for a number that the table lacks.
    pub fn numbered(number: u8) -> Option<Refusal>
        ensures { Numbered number result }
    {
        match number {
            1 => Some(Refusal::Short),
            2 => Some(Refusal::Counts),
            3 => Some(Refusal::StrayBit),
            4 => Some(Refusal::States),
            5 => Some(Refusal::NoState),
            6 => Some(Refusal::OverOne),
            7 => Some(Refusal::TooWide),
            8 => Some(Refusal::Inputs),
            9 => Some(Refusal::NoComponent),
            10 => Some(Refusal::Mask),
            11 => Some(Refusal::GateAhead),
            12 => Some(Refusal::Threshold),
            13 => Some(Refusal::NoGate),
            14 => Some(Refusal::LoadSize),
            15 => Some(Refusal::LeftOver),
            16 => Some(Refusal::Unsound),
            17 => Some(Refusal::NoItem),
            18 => Some(Refusal::NoRoom),
            19 => Some(Refusal::NoCustomers),
            20 => Some(Refusal::Node),
            21 => Some(Refusal::BadEnd),
            22 => Some(Refusal::Leaf),
            23 => Some(Refusal::TooFar),
            _ => None,
        }
    }
}

impl Row for Refusal {
    ghost row_number = { row_of };

    fn row_number(self) -> u8 {
        self.number()
    }
}
