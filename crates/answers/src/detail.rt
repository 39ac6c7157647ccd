// The name in a refusal's detail, as a part of one of the two lent areas (01, the questions; the form that 01 asks for).
ghost use Rattle.std.specs.Prelude.{◌≡◌, Option};
ghost use Rattle.answers.specs.Answer.{refusal_name, bytes_named, place_named};
ghost use Rattle.answers.specs.declared.detail.Name.{Name};

use crate::answer::Refusal;
use cells::text::part;

// A name, by the area that it stands in and its payload.
#[derive(Clone, Copy, Debug, PartialEq, Eq)]
pub enum Name {
    Spec(u64),
    Call(u64),
}

// A refusal that may have a name in its detail.
pub trait Detail {
    ghost named: { Self → Option Name };

    fn name(self) -> Option<Name>
        ensures { result ≡ named self };
}

impl Detail for Refusal {
    ghost named = { refusal_name };

    fn name(self) -> Option<Name> {
        match self {
            Refusal::RepeatedParameter(name)
            | Refusal::MissingPositionalOnly(name)
            | Refusal::Missing(name)
            | Refusal::MissingNamedOnly(name) => Some(Name::Spec(name)),
            Refusal::RepeatedArg(name) | Refusal::ExtraNamedArg(_, name) => Some(Name::Call(name)),
            Refusal::Record(_)
            | Refusal::ArgsArrayIsNotIterable
            | Refusal::KwArgsIsNotDict
            | Refusal::ArgsValueIsNotString
            | Refusal::ExtraPositionalArg(_) => None,
        }
    }
}

// The bytes of the name that goes with an answer, in the area where it stands; none where no name goes with it, or where its payload
// lies outside that area.
pub fn name_of<'a, T: Drop, E: Detail>(
    spec: &'a [u8],
    call: &'a [u8],
    answer: Result<T, E>,
) -> &'a [u8]
    ensures bytes { result.now ≡ bytes_named E.named spec.now call.now answer }
    ensures place { result.ref_ptr ≡ place_named E.named spec.entry call.entry answer }
{
    match answer.err().and_then(|refusal| refusal.name()) {
        Some(Name::Spec(payload)) => part(spec, payload),
        Some(Name::Call(payload)) => part(call, payload),
        None => &spec[..0],
    }
}
