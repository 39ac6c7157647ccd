// What collection answers: the four counts, or the refusal, by the Rust's names for its errors where it has them.
ghost use Rattle.std.specs.Prelude.{◌≡◌};
ghost use Rattle.answers.specs.Answer.{entry_refused};
ghost use Rattle.answers.specs.declared.answer.Refusal.TheVariants.{Record};

use cells::question::Question;

// How many slots hold a value of the call, how many a default, and the lengths of the two remainders.
#[derive(Clone, Copy, Debug, PartialEq, Eq)]
pub struct Counts {
    pub taken: usize,
    pub defaulted: usize,
    pub star: usize,
    pub named: usize,
}

// A name is the payload of a text: in the spec area at 16 and 20 to 22, in the call area at 19 and 24.
#[derive(Clone, Copy, Debug, PartialEq, Eq)]
pub enum Refusal {
    // 1 to 7 and 9 to 14: a question about a record or the board
    Record(Question),
    // 15
    ArgsArrayIsNotIterable,
    // 16: a parameter that is filled by position and named
    RepeatedParameter(u64),
    // 17
    KwArgsIsNotDict,
    // 18
    ArgsValueIsNotString,
    // 19: a key whose slot or name is taken
    RepeatedArg(u64),
    // 20, 21, 22: a required parameter that is given nothing
    MissingPositionalOnly(u64),
    Missing(u64),
    MissingNamedOnly(u64),
    // 23: how many
    ExtraPositionalArg(usize),
    // 24: how many, and the first name
    ExtraNamedArg(usize, u64),
}

// What is wrong with an entry of a call's dictionary.
#[derive(Clone, Copy, Debug, PartialEq, Eq)]
pub enum EntryRefusal {
    // 18
    NotText,
    // 19: the key
    Repeated(u64),
}

impl From<Question> for Refusal {
    ghost from_gives = { λ question refusal. refusal ≡ Record question };

    fn from(question: Question) -> Refusal {
        Refusal::Record(question)
    }
}

impl From<EntryRefusal> for Refusal {
    ghost from_gives = { λ entry refusal. refusal ≡ entry_refused entry };

    fn from(entry: EntryRefusal) -> Refusal {
        match entry {
            EntryRefusal::NotText => Refusal::ArgsValueIsNotString,
            EntryRefusal::Repeated(name) => Refusal::RepeatedArg(name),
        }
    }
}
