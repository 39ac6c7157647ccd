// The questions about a record, an output or lent numbers whose refusal has a number and no detail (01, the questions 1 to 7 and 9 to 14; accessors,
// 25; printed list, 29).
ghost use Rattle.std.specs.Prelude.{◌≡◌};
ghost use Rattle.cells.specs.Question.{number_of};

// What is wrong where the first question is answered by "no".
#[derive(Clone, Copy, Debug, PartialEq, Eq, Hash)]
pub enum Question {
    // of a parameter record and its area
    PartialStep = 1,
    UnknownCode = 2,
    NameOutside = 3,
    WrongDefault = 4,
    OutOfOrder = 5,
    TooManyParameters = 6,
    RepeatedParameter = 7,
    // of a call record and its area
    WrongLength = 9,
    WrongKind = 10,
    MalformedPart = 11,
    RepeatedKey = 12,
    RepeatedName = 13,
    // of what is lent for the answer
    ShortBoard = 14,
    LargeNumbers = 25,
    ShortOutput = 29,
}

impl Question {
    // 01's number for it.
    pub fn number(self) -> u64
        ensures { result ≡ number_of self }
    {
        self as u64
    }
}
