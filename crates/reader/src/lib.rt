// The slot reader (01, slot reader; `ParametersParser` of the Rust): a walk over lent slots, one parameter at a time. The parser
// holds a reference; the work is done by the functions at the end, which take the cells and a position.
// Reworked from starlark 0.14.2, src/eval/runtime/params/parser.rs, Apache-2.0.
#![tactic(auto)]

ghost use Rattle.std.specs.Prelude.{◌≡◌};
ghost use Rattle.rules.specs.Reader.{read_needed, read_optional, at_end, left_at};
ghost use Rattle.reader.specs.Parser.{read_of, read_or, left_of, moved_on, Reads};

use cells::value::Pair;

// Why a read answers no value.
#[derive(Clone, Copy, Debug, PartialEq, Eq)]
pub enum ReadError {
    // 27: no slot is left.
    NoMore,
    // 28: a needed value whose slot is empty.
    Unfilled,
}

// What a read answers, and the position where it leaves the reader. The answer is the two cells of a filled slot, as they stand there; none for an
// optional value whose slot is empty.
#[derive(Clone, Copy, Debug, PartialEq, Eq)]
pub struct Reading {
    pub next: Result<Option<Pair>, ReadError>,
    pub at: usize,
}

// Two cells a slot; `at` is how many slots were read.
#[derive(Drop)]
pub struct ParametersParser<'a> {
    slots: &'a [u64],
    at: usize,
}

impl<'a> ParametersParser<'a> {
    pub fn new(slots: &'a [u64]) -> Self
        ensures { (result.slots ≡ slots.entry) × (result.at ≡ 0) }
    {
        ParametersParser { slots, at: 0 }
    }

    // A needed value.
    pub fn next(&mut self) -> Result<Option<Pair>, ReadError>
        ensures { (read_of result ≡ read_needed (left_of self.old)) × (self.new ≡ moved_on self.old) }
    {
        self.read(Err(ReadError::Unfilled))
    }

    // An optional value.
    pub fn next_opt(&mut self) -> Result<Option<Pair>, ReadError>
        ensures { (read_of result ≡ read_optional (left_of self.old)) × (self.new ≡ moved_on self.old) }
    {
        self.read(Ok(None))
    }

    // A read of either sort (the Rust's `get_next`); `empty` is its answer for an empty slot.
    fn read(&mut self, empty: Result<Option<Pair>, ReadError>) -> Result<Option<Pair>, ReadError>
        ensures { (read_of result ≡ read_or (read_of empty) (left_of self.old)) × (self.new ≡ moved_on self.old) }
    {
        let slots = self.slots;
        let at = self.at;
        let reading = read_at(slots, at, empty);
        self.at = reading.at;
        reading.next
    }

    pub fn is_eof(&self) -> bool
        ensures { result ≡ at_end (left_of self.now) }
    {
        let slots = self.slots;
        let at = self.at;
        is_end(slots, at)
    }
}

// One read of a parser that stands at a position. No parser is seen from outside, so a caller's proof walks nothing.
pub fn read_next(slots: &[u64], at: usize) -> Reading
    ensures { Reads read_needed slots.now at result }
{
    read_once(slots, at, Err(ReadError::Unfilled))
}

pub fn read_next_opt(slots: &[u64], at: usize) -> Reading
    ensures { Reads read_optional slots.now at result }
{
    read_once(slots, at, Ok(None))
}

fn read_once(slots: &[u64], at: usize, empty: Result<Option<Pair>, ReadError>) -> Reading
    ensures { Reads (read_or (read_of empty)) slots.now at result }
{
    let mut parser = ParametersParser { slots, at };
    let next = parser.read(empty);
    Reading {
        next,
        at: parser.at,
    }
}

pub fn read_is_eof(slots: &[u64], at: usize) -> bool
    ensures { result ≡ at_end (left_at slots.now at) }
{
    let parser = ParametersParser { slots, at };
    parser.is_eof()
}

// The work: what a read answers at a position of some cells. A position may be any number at all, so it is compared with the number of
// slots before it is doubled.
fn read_at(cells: &[u64], at: usize, empty: Result<Option<Pair>, ReadError>) -> Reading
    ensures { Reads (read_or (read_of empty)) cells.now at result }
{
    let slots = cells.len() / 2;
    if slots <= at {
        return Reading {
            next: Err(ReadError::NoMore),
            at,
        };
    }
    let after = at + 1;
    let kind = cells[2 * at];
    if kind == 0 {
        return Reading {
            next: empty,
            at: after,
        };
    }
    Reading {
        next: Ok(Some(Pair::new(kind, cells[2 * at + 1]))),
        at: after,
    }
}

fn is_end(cells: &[u64], at: usize) -> bool
    ensures { result ≡ at_end (left_at cells.now at) }
{
    cells.len() / 2 <= at
}
