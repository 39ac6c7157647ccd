// The parameters of a list, in the order in which they occur, as plain numbers. Reworked from starlark 0.14.2,
// src/eval/runtime/params/spec.rs (CurrentParameterStyle, and the params of ParametersSpecBuilder), Apache-2.0.
ghost use Rattle.std.specs.Prelude.{◌≡◌, cond, ◌+◌, ◌≤◌, ◌<◌};
ghost use Rattle.rules.specs.Text.{bytes_at};
ghost use Rattle.rules.specs.Parameters.{rank, takes_name, takes_position, comes_before, pos_or_named};
ghost use Rattle.builder.specs.Params.{style_of, no_parameters, may_be_named, known_in, new_in, Longer};

use cells::text::same;

// The most parameters that a list can hold.
pub const CAPACITY: usize = 64;

// How a parameter that is added now can be filled.
#[derive(Clone, Copy, Debug, PartialEq, Eq)]
pub enum CurrentParameterStyle {
    // By position only.
    PosOnly,
    // By position or by name.
    PosOrNamed,
    // By name only.
    NamedOnly,
    // No more parameters.
    NoMore,
}

// One step of a parameter record: its four cells.
#[derive(Clone, Copy, Debug, PartialEq, Eq)]
pub struct Step {
    pub code: u64,
    pub name: u64,
    pub default_kind: u64,
    pub default_payload: u64,
}

// The parameters, a column for each thing that is kept of one: the code of the step that added it (1, 2, 3, 6 or 7), the number of
// its style (0, 1 or 2), its name's payload, and the two cells of its default. What `build` promises of a list (`Building`) are the parameters
// that the columns spell. That leaves open the code of **kwargs, for which every number but 1, 2, 3 and 6 would do, the default's cells of every
// other code than 3, and all cells from `len` on: nothing that reads the columns tells these apart.
#[derive(Clone, Copy)]
pub struct Parameters {
    pub codes: [u8; CAPACITY],
    pub styles: [u8; CAPACITY],
    pub names: [u64; CAPACITY],
    pub default_kinds: [u64; CAPACITY],
    pub default_payloads: [u64; CAPACITY],
    pub len: usize,
}

impl CurrentParameterStyle {
    pub fn number(self) -> u8
        ensures { result ≡ rank (style_of self) }
    {
        self as u8
    }

    pub fn takes_name(self) -> bool
        ensures { result ≡ takes_name (style_of self) }
    {
        match self {
            CurrentParameterStyle::PosOnly => false,
            CurrentParameterStyle::PosOrNamed => true,
            CurrentParameterStyle::NamedOnly => true,
            CurrentParameterStyle::NoMore => false,
        }
    }

    // How many are positional-only once a parameter at index i is added: `count` were so before it.
    pub(crate) fn positional_only(self, i: usize, count: usize) -> usize
        requires { i < 64 }
        ensures { result ≡ cond (comes_before (style_of self) pos_or_named) (i + 1) count }
    {
        let with_it = i + 1;
        match self {
            CurrentParameterStyle::PosOnly => with_it,
            CurrentParameterStyle::PosOrNamed => count,
            CurrentParameterStyle::NamedOnly => count, // as many as before
            CurrentParameterStyle::NoMore => count,
        }
    }

    // How many are positional then.
    pub(crate) fn positional(self, i: usize, count: usize) -> usize
        requires { i < 64 }
        ensures { result ≡ cond (takes_position (style_of self)) (i + 1) count }
    {
        let with_it = i + 1;
        match self {
            CurrentParameterStyle::PosOnly => with_it,
            CurrentParameterStyle::PosOrNamed => with_it,
            CurrentParameterStyle::NamedOnly => count,
            CurrentParameterStyle::NoMore => count,
        }
    }
}

// Can a parameter with this code and this number of a style be named in a call?
pub fn may_be_named(code: u64, style: u64) -> bool
    ensures { result ≡ may_be_named code style }
{
    matches!((code, style), (1..=3, 1..=2))
}

// The bytes that a payload names, as far as the area goes.
pub fn bytes_at<'a>(area: &'a [u8], payload: u64) -> &'a [u8]
    ensures { result.now ≡ bytes_at area.now payload }
{
    let start = (payload / 256) as usize;
    let end = start + (payload % 256) as usize;
    &area[start.min(area.len())..end.min(area.len())]
}

impl Parameters {
    pub fn new() -> Self
        ensures { result ≡ no_parameters }
    {
        Self {
            codes: [0; CAPACITY],
            styles: [0; CAPACITY],
            names: [0; CAPACITY],
            default_kinds: [0; CAPACITY],
            default_payloads: [0; CAPACITY],
            len: 0,
        }
    }

    // One more parameter at the end, under a style: the one that a step describes.
    pub(crate) fn push(&mut self, s: Step, style: CurrentParameterStyle)
        requires { (self.old.len < 64) × (s.code < 256) }
        ensures { Longer self.old s (style_of style) self.new }
    {
        let at = self.len;
        self.codes[at] = s.code as u8;
        self.styles[at] = style.number();
        self.names[at] = s.name;
        self.default_kinds[at] = s.default_kind;
        self.default_payloads[at] = s.default_payload;
        self.len = at + 1;
    }
}

// Is the name of a parameter that is added under this style new among the nameable ones, if it has to be?
pub(crate) fn name_is_new(
    area: &[u8],
    params: &Parameters,
    style: CurrentParameterStyle,
    name: u64,
) -> bool
    requires { params.now.len ≤ 64 }
    ensures { result ≡ new_in area.now params.now (style_of style) name }
{
    !style.takes_name() || !known(area, params, bytes_at(area, name))
}

// Is there a nameable parameter with these bytes? Most are told apart by their lengths, so bytes are compared first.
fn known(area: &[u8], params: &Parameters, bytes: &[u8]) -> bool
    requires { params.now.len ≤ 64 }
    ensures { result ≡ known_in area.now params.now bytes.now }
{
    (0..params.len).any(|i| {
        same(bytes, bytes_at(area, params.names[i]))
            && may_be_named(u64::from(params.codes[i]), u64::from(params.styles[i]))
    })
}
