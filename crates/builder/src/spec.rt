// The builder of a parameter list (01, on `ParametersSpecBuilder`), a struct by value: a step consumes one state and answers with another,
// so a refused step cannot leave a half-changed one. Reworked from starlark 0.14.2, src/eval/runtime/params/spec.rs, Apache-2.0.
ghost use Rattle.std.specs.Prelude.{◌≡◌, true, List, ℕ, ◌≤◌, ◌<◌};
ghost use Rattle.rules.specs.ParameterRecord.{Step as RecordStep};
ghost use Rattle.rules.specs.Parameters.{act, slash, bare_star, comes_before, pos_only, no_more, named_only};
ghost use Rattle.cells.specs.Question.{answer_of};
ghost use Rattle.builder.specs.Params.{style_of, step_of, ask_adding};
ghost use Rattle.builder.specs.Spec.{style_in, Empty, Pushed, Stepping, refused_by, under_style, finished};

use crate::params::{CAPACITY, CurrentParameterStyle, Parameters, Step, name_is_new};
use cells::question::Question;

// The state of a list that is being built. A step stores into the parameters where they stand, and nothing is copied on the way but the
// state itself.
#[derive(Drop)]
pub struct ParametersSpecBuilder {
    pub params: Parameters,
    // Number of parameters that can be filled only positionally.
    pub positional_only: usize,
    // Number of parameters that can be filled positionally.
    pub positional: usize,
    pub current_style: CurrentParameterStyle,
    pub args: Option<usize>,
    pub kwargs: Option<usize>,
}

// What a step answers, and the state after it: the state before it where the step is refused. The state stands first: behind an answer of two
// bytes there would be a gap, and to fill it each step would clear the columns that it is about to copy.
#[derive(Drop)]
pub struct Stepped {
    pub builder: ParametersSpecBuilder,
    pub answer: Result<(), Question>,
}

#[derive(Clone, Copy, Debug, PartialEq, Eq)]
pub struct DefParamIndices {
    pub num_positional_only: usize,
    pub num_positional: usize,
    pub args: Option<usize>,
    pub kwargs: Option<usize>,
}

// A finished list, and the area that its names and its defaults' texts lie in.
#[derive(Clone, Copy)]
pub struct ParametersSpec<'a> {
    pub params: Parameters,
    pub indices: DefParamIndices,
    pub area: &'a [u8],
}

impl ParametersSpecBuilder {
    pub fn new() -> Self
        ensures { Empty result }
    {
        Self {
            params: Parameters::new(),
            positional_only: 0,
            positional: 0,
            current_style: CurrentParameterStyle::PosOnly,
            args: None,
            kwargs: None,
        }
    }

    // One step: 5 by its code and the style so far, and then 6 and 7 where it adds a parameter.
    pub fn step(self, area: &[u8], s: Step) -> Stepped
        ensures { Stepping area.now self (step_of s) result }
    {
        let style = self.current_style;
        let code = s.code;
        match code {
            1..=3 => match style {
                CurrentParameterStyle::PosOnly
                | CurrentParameterStyle::PosOrNamed
                | CurrentParameterStyle::NamedOnly => self.add(area, s),
                CurrentParameterStyle::NoMore => self.refused(Question::OutOfOrder),
            },
            4 => match style {
                CurrentParameterStyle::PosOnly => self.no_more_positional_only_args(),
                CurrentParameterStyle::PosOrNamed => self.refused(Question::OutOfOrder), // after another `/`
                CurrentParameterStyle::NamedOnly => self.refused(Question::OutOfOrder), // after `*`
                CurrentParameterStyle::NoMore => self.refused(Question::OutOfOrder), // after `**kwargs`
            },
            5..=6 => match style {
                CurrentParameterStyle::PosOnly | CurrentParameterStyle::PosOrNamed => {
                    if code == 5 {
                        self.no_more_positional_args()
                    } else {
                        self.args(s)
                    }
                }
                CurrentParameterStyle::NamedOnly | CurrentParameterStyle::NoMore => self.refused(
                    Question::OutOfOrder,
                ),
            },
            7 => match style {
                CurrentParameterStyle::PosOnly
                | CurrentParameterStyle::PosOrNamed
                | CurrentParameterStyle::NamedOnly => self.kwargs(s),
                CurrentParameterStyle::NoMore => self.refused(Question::OutOfOrder),
            },
            _ => self.refused(Question::OutOfOrder),
        }
    }

    // The state as it was, and the question.
    fn refused(self, question: Question) -> Stepped
        ensures { result ≡ refused_by question self }
    {
        Stepped {
            builder: self,
            answer: Err(question),
        }
    }

    // The state under another style, with nothing added.
    fn under(self, style: CurrentParameterStyle) -> Stepped
        ensures { result ≡ under_style style self }
    {
        Stepped {
            builder: Self {
                current_style: style,
                ..self
            },
            answer: Ok(()),
        }
    }

    // Following parameters can be filled positionally or by name.
    fn no_more_positional_only_args(self) -> Stepped
        requires { style_in self ≡ pos_only }
        ensures { (area : List ℕ) (t : RecordStep) → act t ≡ slash → Stepping area self t result }
    {
        self.under(CurrentParameterStyle::PosOrNamed)
    }

    // There is no `*args`; following parameters can be filled only by name.
    fn no_more_positional_args(self) -> Stepped
        requires { comes_before (style_in self) named_only ≡ true }
        ensures { (area : List ℕ) (t : RecordStep) → act t ≡ bare_star → Stepping area self t result }
    {
        self.under(CurrentParameterStyle::NamedOnly)
    }

    // A parameter of codes 1 to 3, that is required, optional or defaulted. It is stored where the state stands and not by the method `push`
    // below, which would copy the state once more: most steps are of this kind.
    fn add(mut self, area: &[u8], s: Step) -> Stepped
        requires { (1 ≤ s.code) × (s.code < 4) × (comes_before (style_in self) no_more ≡ true) }
        ensures { Stepping area.now self (step_of s) result }
    {
        let style = self.current_style;
        if let Err(question) = may_add(area, &self.params, style, s.name) {
            return self.refused(question);
        }
        let i = self.params.len;
        self.params.push(s, style);
        self.positional_only = style.positional_only(i, self.positional_only);
        self.positional = style.positional(i, self.positional);
        Stepped {
            builder: self,
            answer: Ok(()),
        }
    }

    // One more parameter at the end, under the style so far; counts, style and indices are as they were.
    fn push(mut self, s: Step) -> Self
        requires { (self.params.len < 64) × (s.code < 256) }
        ensures { Pushed self s result }
    {
        let style = self.current_style;
        self.params.push(s, style);
        self
    }

    // `*args`, which takes what positionals are left; following parameters can be filled only by name.
    fn args(self, s: Step) -> Stepped
        requires { (s.code ≡ 6) × (comes_before (style_in self) named_only ≡ true) }
        ensures { (area : List ℕ) → Stepping area self (step_of s) result }
    {
        let index = self.params.len;
        if CAPACITY <= index {
            return self.refused(Question::TooManyParameters);
        }
        Stepped {
            builder: Self {
                current_style: CurrentParameterStyle::NamedOnly,
                args: Some(index),
                ..self.push(s)
            },
            answer: Ok(()),
        }
    }

    // `**kwargs`, which takes what names are left; nothing follows it.
    fn kwargs(self, s: Step) -> Stepped
        requires { (s.code ≡ 7) × (comes_before (style_in self) no_more ≡ true) }
        ensures { (area : List ℕ) → Stepping area self (step_of s) result }
    {
        let index = self.params.len;
        if CAPACITY <= index {
            return self.refused(Question::TooManyParameters);
        }
        Stepped {
            builder: Self {
                current_style: CurrentParameterStyle::NoMore,
                kwargs: Some(index),
                ..self.push(s)
            },
            answer: Ok(()),
        }
    }

    // The finished list, with the area of its record. The Rust asserts here that `positional_only` is at most `positional`: that holds after every step (`Built`) and of each
    // list that `build` hands out (`Building`), so nothing is asked (02, §8).
    pub fn finish<'a>(self, area: &'a [u8]) -> ParametersSpec<'a>
        ensures { result ≡ finished area.entry self }
    {
        ParametersSpec {
            params: self.params,
            indices: DefParamIndices {
                num_positional_only: self.positional_only,
                num_positional: self.positional,
                args: self.args,
                kwargs: self.kwargs,
            },
            area,
        }
    }
}

// 6 and 7 of a parameter of codes 1 to 3: is there room, and is its name new where it has to be?
fn may_add(
    area: &[u8],
    params: &Parameters,
    style: CurrentParameterStyle,
    name: u64,
) -> Result<(), Question>
    ensures { answer_of result ≡ ask_adding area.now params.now (style_of style) name }
{
    if CAPACITY <= params.len {
        return Err(Question::TooManyParameters);
    }
    if !name_is_new(area, params, style, name) {
        return Err(Question::RepeatedParameter);
    }
    Ok(())
}
