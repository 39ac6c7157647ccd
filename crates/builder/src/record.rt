// The parameter record: its steps, and questions 1 to 4. Each is put to all the steps before the next is put to any.
ghost use Rattle.std.specs.Prelude.{◌≡◌, ◌<◌};
ghost use Rattle.rules.specs.Text.{is_text};
ghost use Rattle.rules.specs.Value.{well_formed_default};
ghost use Rattle.rules.specs.ParameterRecord.{step_count, read_parameters};
ghost use Rattle.rules.specs.Parameters.{act};
ghost use Rattle.rules.specs.ParameterQuestions.{whole_steps, is_code, codes_known, step_name, names_inside, uses_right, defaults_right, is_zero};
ghost use Rattle.builder.specs.Params.{step_of};
ghost use Rattle.builder.specs.Record.{step_at, value_of};

use crate::params::{CAPACITY, Step};
use cells::record::{Record, cell};
use cells::text::read_text;
use cells::value::read_default;

// A list of the most parameters has two steps more, the `/` and the bare `*`.
const MARKS: usize = 2;

// Question 1: a cell for the function and whole steps, not too many of them.
pub fn whole_steps(cells: &[u64]) -> bool
    ensures { result ≡ whole_steps 64 cells.now }
{
    let m = step_count(cells);
    cells.len() == 1 + 4 * m && m <= CAPACITY + MARKS
}

// Question 2: each step has a code that is one.
pub fn codes_known(cells: &[u64]) -> bool
    ensures { result ≡ codes_known (read_parameters cells.now).steps }
{
    (0..step_count(cells)).all(|i| step_at(cells, i).is_code())
}

// Question 3: the function has a name, and so has each step whose code calls for one.
pub fn names_inside(record: &Record) -> bool
    ensures { result ≡ names_inside record.now.area.now (read_parameters record.now.cells.now) }
{
    is_name(record.area, cell(record.cells, 0))
        && (0..step_count(record.cells)).all(|i| {
            step_at(record.cells, i).name_inside(record.area)
        })
}

// Question 4: a default where the code calls for one, and nothing in cells that it leaves alone.
pub fn defaults_right(record: &Record) -> bool
    ensures { result ≡ defaults_right record.now.area.now (read_parameters record.now.cells.now).steps }
{
    (0..step_count(record.cells)).all(|i| step_at(record.cells, i).uses_right(record.area))
}

// How many whole steps some cells hold.
pub fn step_count(cells: &[u64]) -> usize
    ensures { result ≡ step_count cells.now }
{
    cells.len().saturating_sub(1) / 4
}

// The step at an index.
#[tactic(auto, unfolding(rules::specs::ParameterRecord::step_count, rules::specs::ParameterRecord::step_width))]
pub(crate) fn step_at(cells: &[u64], i: usize) -> Step
    requires { i < step_count cells.now }
    ensures { step_of result ≡ step_at cells.now i }
{
    let at = 1 + 4 * i;
    Step {
        code: cells[at],
        name: cells[at + 1],
        default_kind: cells[at + 2],
        default_payload: cells[at + 3],
    }
}

// Is this a name, of a function or of a parameter?
pub fn is_name(area: &[u8], payload: u64) -> bool
    ensures { result ≡ is_text 1 area.now payload }
{
    read_text(area, 1, payload).is_some()
}

// Are these the cells of a default?
fn is_default(area: &[u8], kind: u64, payload: u64) -> bool
    ensures { result ≡ well_formed_default area.now (value_of kind payload) }
{
    read_default(area, kind, payload).is_some()
}

impl Step {
    pub fn is_code(self) -> bool
        ensures { result ≡ is_code (act (step_of self)) }
    {
        matches!(self.code, 1..=7)
    }

    // Is its name a name, if its code has one?
    pub fn name_inside(self, area: &[u8]) -> bool
        ensures { result ≡ step_name area.now (step_of self) }
    {
        match self.code {
            1..=3 => is_name(area, self.name),
            _ => true,
        }
    }

    // Is its default one, if its code has one, and is each cell that the code does not use 0?
    pub fn uses_right(self, area: &[u8]) -> bool
        ensures { result ≡ uses_right area.now (act (step_of self)) self.name (step_of self).default }
    {
        match self.code {
            1..=2 => self.no_default(),
            3 => is_default(area, self.default_kind, self.default_payload),
            4..=7 => self.name == 0 && self.no_default(),
            _ => true,
        }
    }

    fn no_default(self) -> bool
        ensures { result ≡ is_zero (step_of self).default }
    {
        self.default_kind == 0 && self.default_payload == 0
    }
}
