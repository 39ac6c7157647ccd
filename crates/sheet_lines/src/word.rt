// The words of a row (01, sheets): what its part names, and which star a value names. Each is compared as a whole.
ghost use Rattle.std.specs.Prelude.{◌≡◌};
ghost use Rattle.std.specs.List.{position_from};
ghost use Rattle.rules.specs.Text.{same_bytes};
ghost use Rattle.rules.specs.SheetLines.{Row, cells_in};
ghost use Rattle.rules.specs.SheetRows.{is_def, code_of, call_part, is_list, is_dict, is_other};
ghost use Rattle.sheet_lines.specs.Word.{part_read};

use crate::line::COMMA;
use cells::text::same;

// What a row of a call adds.
#[derive(Clone, Copy, Debug, PartialEq, Eq)]
pub enum CallPart {
    Positional,
    Named,
    Star,
    Item,
    Double,
    Entry,
}

// Where a word stands among the cells of a line, counted from 0. A table of words is such a line.
pub(crate) fn position(word: &[u8], line: &[u8]) -> Option<usize>
    ensures { result ≡ position_from (same_bytes word.now) 0 (cells_in line.now) }
{
    line.split(|b| *b == COMMA)
        .position(|cell| same(word, cell))
}

// Is it the row that names the function? Whatever its other cells hold.
pub fn is_def(part: &[u8]) -> bool
    ensures { (row : Row) → row.part ≡ part.now → result ≡ is_def row }
{
    same(part, b"def")
}

// The code of a builder's step, 0 where the part is no step's.
pub fn code_of(part: &[u8]) -> u64
    ensures { result ≡ code_of part.now }
{
    match position(part, b"required,optional,defaulted,/,*,*args,**kwargs") {
        Some(number) => number as u64 + 1,
        None => 0,
    }
}

// What a row of a call adds, by its part.
pub fn call_part(part: &[u8]) -> Option<CallPart>
    ensures { part_read result ≡ call_part part.now }
{
    match position(part, b"pos,named,star,item,dstar,entry")? {
        0 => Some(CallPart::Positional),
        1 => Some(CallPart::Named),
        2 => Some(CallPart::Star),
        3 => Some(CallPart::Item),
        4 => Some(CallPart::Double),
        5 => Some(CallPart::Entry),
        _ => None,
    }
}

// What a star's or a double star's value says that it is.
pub fn is_list(value: &[u8]) -> bool
    ensures { result ≡ is_list value.now }
{
    same(value, b"list")
}

pub fn is_dict(value: &[u8]) -> bool
    ensures { result ≡ is_dict value.now }
{
    same(value, b"dict")
}

pub fn is_other(value: &[u8]) -> bool
    ensures { result ≡ is_other value.now }
{
    same(value, b"other")
}
