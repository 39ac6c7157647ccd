// What an accessor answers (01, accessors): the number that it is asked for, or the refusal, by the Rust's name (`FunctionError`) and its names for
// its errors; and the name in a refusal's detail.
// Reworked from starlark 0.14.2, src/eval/runtime/arguments.rs, Apache-2.0.
ghost use Rattle.std.specs.Prelude.{◌≡◌};
ghost use Rattle.accessors.specs.Answer.{entry_denied, error_name, name_in, name_place};
ghost use Rattle.accessors.specs.declared.answer.FunctionError.TheVariants.{Record};

use answers::answer::EntryRefusal;
use answers::detail;
use answers::detail::{Detail, Name};
use cells::question::Question;

// A name is the payload of a text in the call area.
#[derive(Clone, Copy, Debug, PartialEq, Eq)]
pub enum FunctionError {
    // 9 to 14, and 25: a question about the record, the output or the numbers that are asked for
    Record(Question),
    // 15
    ArgsArrayIsNotIterable,
    // 17
    KwArgsIsNotDict,
    // 18
    ArgsValueIsNotString,
    // 19: a key that is one of the names before it
    RepeatedArg(u64),
    // 24: how many, and the first name
    ExtraNamedArg(usize, u64),
    // 26: the least and the greatest number that would do, and the number given
    WrongNumberOfArgs(usize, usize, usize),
}

impl From<Question> for FunctionError {
    ghost from_gives = { λ question error. error ≡ Record question };

    fn from(question: Question) -> FunctionError {
        FunctionError::Record(question)
    }
}

impl From<EntryRefusal> for FunctionError {
    ghost from_gives = { λ entry error. error ≡ entry_denied entry };

    fn from(entry: EntryRefusal) -> FunctionError {
        match entry {
            EntryRefusal::NotText => FunctionError::ArgsValueIsNotString,
            EntryRefusal::Repeated(name) => FunctionError::RepeatedArg(name),
        }
    }
}

impl Detail for FunctionError {
    ghost named = { error_name };

    fn name(self) -> Option<Name> {
        match self {
            FunctionError::RepeatedArg(name) | FunctionError::ExtraNamedArg(_, name) => {
                Some(Name::Call(name))
            }
            FunctionError::Record(_)
            | FunctionError::ArgsArrayIsNotIterable
            | FunctionError::KwArgsIsNotDict
            | FunctionError::ArgsValueIsNotString
            | FunctionError::WrongNumberOfArgs(_, _, _) => None,
        }
    }
}

// The bytes of the name that goes with an answer, as collection hands them back; none where no name goes with it.
pub fn name_of<'a>(call: &'a [u8], answer: Result<usize, FunctionError>) -> &'a [u8]
    ensures bytes { result.now ≡ name_in call.now answer }
    ensures place { result.ref_ptr ≡ name_place call.entry answer }
{
    // no name stands in another area
    detail::name_of(call, call, answer)
}
