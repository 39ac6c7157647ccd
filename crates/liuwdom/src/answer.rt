// The answer of an exported function: what each answer of the code says in the eight cells of a lent array.
ghost use Rattle.std.specs.Prelude.{◌≡◌, List, [], ◌∷◌, ℕ};
ghost use Rattle.rules.specs.Text.{start_of, size_of};
ghost use Rattle.rules.specs.Answer.{none};
ghost use Rattle.cells.specs.Question.{number_of};
ghost use Rattle.answers.specs.Answer.{told, refusal_number, refusal_detail};
ghost use Rattle.accessors.specs.Answer as accessors;
ghost use Rattle.printer.specs.Printed as printer;
ghost use Rattle.can_fill.specs.CanFill.{filling_in};
ghost use Rattle.lookup.specs.Lookup.{finding_of};
ghost use Rattle.prepared.specs.Bind.{preparation_in, told_by};
ghost use Rattle.reader.specs.Parser.{read_of};
ghost use Rattle.sheets.specs.Bind.{bound_of};
ghost use Rattle.sheets.specs.Read.{reading_of};
ghost use Rattle.window.specs.Exceeded.{window_in};
ghost use Rattle.liuwdom.specs.Answer.{Says, value_answer, refusal_answer, outcome_answer, preparation_answer, filling_answer, access_answer, finding_answer, read_answer, bound_answer, reading_answer, window_answer};
ghost use Rattle.liuwdom.specs.Told.{told_cells};

use accessors::answer::FunctionError;
use answers::answer::{Counts, Refusal};
use cells::question::Question;
use cells::value::Pair;
use prepared::{PreparedRefusal, Unprepared};
use reader::ReadError;
use sheet_judge::BadLine;
use sheets::records::Records;
use sheets::{NoRoom, Unread};
use window::OutOfRange;

// A name in a detail stands in no area, in the spec area or in the call area.
const NOWHERE: u64 = 0;

const SPEC: u64 = 1;

const CALL: u64 = 2;

// The number of cells that are no prepared list, and of an output that is too short for any answer.
const NOT_PREPARED: u64 = 100;

const NO_ROOM: u64 = 101;

// The number of a sheet that breaks a rule, and of a window or a list of runs that is out of its range.
const BAD_SHEET: u64 = 30;

const BAD_WINDOW: u64 = 39;

// An answer before it is written: the number, the name's area and payload, and four values.
#[derive(Drop)]
pub struct Told {
    pub number: u64,
    pub area: u64,
    pub name: u64,
    pub first: u64,
    pub second: u64,
    pub third: u64,
    pub fourth: u64,
}

impl Told {
    // Its eight cells, stored at once, and the number: a proof doesn't know how long a lent array is, so eight stores would not say that
    // they are all of it.
    pub fn write(self, answer: &mut [u64; 8]) -> u64
        ensures { Says (told_cells self) answer.new result }
    {
        *answer = [
            self.number,
            self.area,
            self.name / 256,
            self.name % 256,
            self.first,
            self.second,
            self.third,
            self.fourth,
        ];
        self.number
    }
}

// An answer without a name.
fn plain(number: u64, first: u64, second: u64, third: u64, fourth: u64) -> Told
    ensures { told_cells result ≡ number ∷ 0 ∷ 0 ∷ 0 ∷ first ∷ second ∷ third ∷ fourth ∷ [] }
{
    Told {
        number,
        area: NOWHERE,
        name: 0,
        first,
        second,
        third,
        fourth,
    }
}

// A refusal with a name, and how many there are where that is counted.
fn named(number: u64, area: u64, name: u64, count: u64) -> Told
    ensures { told_cells result ≡ number ∷ area ∷ start_of name ∷ size_of name ∷ count ∷ 0 ∷ 0 ∷ 0 ∷ [] }
{
    Told {
        number,
        area,
        name,
        first: count,
        second: 0,
        third: 0,
        fourth: 0,
    }
}

// A refusal of collection.
fn refusal(r: Refusal) -> Told
    ensures { told_cells result ≡ refusal_answer (refusal_number r) (refusal_detail r) }
{
    match r {
        Refusal::Record(question) => refused(question),
        Refusal::ArgsArrayIsNotIterable => plain(15, 0, 0, 0, 0),
        Refusal::RepeatedParameter(name) => named(16, SPEC, name, 0),
        Refusal::KwArgsIsNotDict => plain(17, 0, 0, 0, 0),
        Refusal::ArgsValueIsNotString => plain(18, 0, 0, 0, 0),
        Refusal::RepeatedArg(name) => named(19, CALL, name, 0),
        Refusal::MissingPositionalOnly(name) => named(20, SPEC, name, 0),
        Refusal::Missing(name) => named(21, SPEC, name, 0),
        Refusal::MissingNamedOnly(name) => named(22, SPEC, name, 0),
        Refusal::ExtraPositionalArg(count) => plain(23, count as u64, 0, 0, 0),
        Refusal::ExtraNamedArg(count, name) => named(24, CALL, name, count as u64),
    }
}

// A question's, which has no detail.
pub fn refused(question: Question) -> Told
    ensures { told_cells result ≡ refusal_answer (number_of question) none }
{
    plain(question.number(), 0, 0, 0, 0)
}

// The four counts of an accepted call.
fn counted(c: Counts) -> Told
    ensures { told_cells result ≡ value_answer c.taken c.defaulted c.star c.named }
{
    plain(
        0,
        c.taken as u64,
        c.defaulted as u64,
        c.star as u64,
        c.named as u64,
    )
}

pub fn collected(r: Result<Counts, Refusal>) -> Told
    ensures { (board : List ℕ) → told_cells result ≡ outcome_answer (told r board) }
{
    match r {
        Ok(c) => counted(c),
        Err(r) => refusal(r),
    }
}

pub fn prepared(r: Result<usize, Unprepared>) -> Told
    ensures { told_cells result ≡ preparation_answer (preparation_in r) }
{
    match r {
        Ok(cells) => plain(0, cells as u64, 0, 0, 0),
        Err(Unprepared::List(question)) => refused(question),
        Err(Unprepared::NoRoom) => plain(NO_ROOM, 0, 0, 0, 0),
    }
}

pub fn prepared_bound(r: Result<Counts, PreparedRefusal>) -> Told
    ensures { (board : List ℕ) → told_cells result ≡ outcome_answer (told_by r board) }
{
    match r {
        Ok(c) => counted(c),
        Err(PreparedRefusal::NotPrepared) => plain(NOT_PREPARED, 0, 0, 0, 0),
        Err(PreparedRefusal::Call(r)) => refusal(r),
    }
}

pub fn filled(r: Result<bool, Question>) -> Told
    ensures { told_cells result ≡ filling_answer (filling_in r) }
{
    match r {
        Ok(yes) => plain(0, yes as u64, 0, 0, 0),
        Err(question) => refused(question),
    }
}

pub fn accessed(r: Result<usize, FunctionError>) -> Told
    ensures { told_cells result ≡ access_answer (accessors.access_in r) }
{
    match r {
        Ok(number) => plain(0, number as u64, 0, 0, 0),
        Err(FunctionError::Record(question)) => refused(question),
        Err(FunctionError::ArgsArrayIsNotIterable) => plain(15, 0, 0, 0, 0),
        Err(FunctionError::KwArgsIsNotDict) => plain(17, 0, 0, 0, 0),
        Err(FunctionError::ArgsValueIsNotString) => plain(18, 0, 0, 0, 0),
        Err(FunctionError::RepeatedArg(name)) => named(19, CALL, name, 0),
        Err(FunctionError::ExtraNamedArg(count, name)) => named(24, CALL, name, count as u64),
        Err(FunctionError::WrongNumberOfArgs(least, most, got)) => {
            plain(26, least as u64, most as u64, got as u64, 0)
        }
    }
}

pub fn printed(r: Result<usize, Question>) -> Told
    ensures { told_cells result ≡ access_answer (printer.access_in r) }
{
    match r {
        Ok(bytes) => plain(0, bytes as u64, 0, 0, 0),
        Err(question) => refused(question),
    }
}

pub fn found(r: Option<usize>) -> Told
    ensures { told_cells result ≡ finding_answer (finding_of r) }
{
    match r {
        Some(index) => plain(0, 1, index as u64, 0, 0),
        None => plain(0, 0, 0, 0, 0),
    }
}

// What a read answers, and the position after it.
pub fn read(r: Result<Option<Pair>, ReadError>, after: usize) -> Told
    ensures { told_cells result ≡ read_answer (read_of r) after }
{
    match r {
        Ok(Some(pair)) => plain(0, pair.kind, pair.payload, after as u64, 0),
        Ok(None) => plain(0, 0, 0, after as u64, 0),
        Err(ReadError::NoMore) => plain(27, 0, 0, after as u64, 0),
        Err(ReadError::Unfilled) => plain(28, 0, 0, after as u64, 0),
    }
}

pub fn bound(r: Result<usize, NoRoom>) -> Told
    ensures { told_cells result ≡ bound_answer (bound_of r) }
{
    match r {
        Ok(bytes) => plain(0, bytes as u64, 0, 0, 0),
        Err(NoRoom) => plain(NO_ROOM, 0, 0, 0, 0),
    }
}

pub fn sheets_read(r: Result<Records, Unread>) -> Told
    ensures { told_cells result ≡ reading_answer (reading_of r) }
{
    match r {
        Ok(records) => {
            let list = records.spec;
            let given = records.call;
            plain(
                0,
                list.cells as u64,
                list.bytes as u64,
                given.cells as u64,
                given.bytes as u64,
            )
        }
        Err(Unread::Bad(BadLine(line))) => plain(BAD_SHEET, line as u64, 0, 0, 0),
        Err(Unread::NoRoom) => plain(NO_ROOM, 0, 0, 0, 0),
    }
}

pub fn exceeded(r: Result<Option<usize>, OutOfRange>) -> Told
    ensures { told_cells result ≡ window_answer (window_in r) }
{
    match r {
        Ok(Some(position)) => plain(0, 1, position as u64, 0, 0),
        Ok(None) => plain(0, 0, 0, 0, 0),
        Err(OutOfRange) => plain(BAD_WINDOW, 0, 0, 0, 0),
    }
}
