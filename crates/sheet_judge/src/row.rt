// One row of a sheet (01, sheets), judged by its cells and by what came before it: in the parameter sheet how many rows, in the call
// sheet their counts. How long a text is, and what kind a key has, is no matter of a sheet.
ghost use Rattle.std.specs.Prelude.{◌≡◌, ◌&&◌, ◌||◌, ltb, eqb};
ghost use Rattle.rules.specs.SheetRows.{is_empty, is_value, step_right, is_other};
ghost use Rattle.sheet_lines.specs.Row.{row_of};
ghost use Rattle.sheet_lines.specs.Word.{call_part_of};
ghost use Rattle.sheet_judge.specs.Counts.{parameter_fits, fits_as};

use calls::head::Head;
use sheet_lines::row::Row;
use sheet_lines::word::{CallPart, code_of, is_def, is_dict, is_list, is_other};
use sheet_values::read::read_cell;

// The values that each part of a call may have.
const MOST: usize = 64;

// The rows that a parameter sheet may have: `def`, and a step for each of 64 parameters and for `/` and `*`, which are none.
const MOST_ROWS: usize = 67;

// A row of a parameter sheet with so many rows before it: `def` is the first of them and no other.
pub(crate) fn parameter_row_right(before: usize, row: Row) -> bool
    ensures { result ≡ parameter_fits 64 before (row_of row.entry) }
{
    if before == 0 {
        return is_def(row.part) && row.value.is_empty();
    }
    before < MOST_ROWS && step_right(row)
}

// A row behind `def`. A cell that its step does not use is empty.
fn step_right(row: Row) -> bool
    ensures { result ≡ step_right (row_of row.entry) }
{
    match code_of(row.part) {
        0 => false,
        1 | 2 => row.value.is_empty(),
        3 => is_value(row.value),
        _ => row.name.is_empty() && row.value.is_empty(),
    }
}

// A row of a call sheet behind rows of these counts.
pub(crate) fn call_row_right(counts: Head, part: CallPart, name: &[u8], value: &[u8]) -> bool
    ensures { result ≡ fits_as 64 counts (call_part_of part) name.now value.now }
{
    match part {
        CallPart::Positional => plain_right(counts.p, name, value),
        CallPart::Named => named_right(counts.n, value),
        CallPart::Star => star_right(is_list(value), counts.star_kind, name, value),
        CallPart::Item => counts.star_kind == 1 && plain_right(counts.s, name, value),
        CallPart::Double => star_right(is_dict(value), counts.double_kind, name, value),
        CallPart::Entry => counts.double_kind == 1 && entry_right(counts.d, name, value),
    }
}

// A value without a name, behind `before` of its part.
fn plain_right(before: usize, name: &[u8], value: &[u8]) -> bool
    ensures { result ≡ (is_empty name.now && is_value value.now && ltb before 64) }
{
    name.is_empty() && named_right(before, value)
}

// A value with any name.
fn named_right(before: usize, value: &[u8]) -> bool
    ensures { result ≡ (is_value value.now && ltb before 64) }
{
    before < MOST && is_value(value)
}

// A value with a key, which is written like a value.
fn entry_right(before: usize, name: &[u8], value: &[u8]) -> bool
    ensures { result ≡ (is_value name.now && is_value value.now && ltb before 64) }
{
    is_value(name) && named_right(before, value)
}

// A star or a double star, of which there was none: its value is what it takes (`one`) or something else.
fn star_right(one: bool, kind: u64, name: &[u8], value: &[u8]) -> bool
    ensures { result ≡ (is_empty name.now && (one || is_other value.now) && eqb kind 0) }
{
    name.is_empty() && kind == 0 && (one || is_other(value))
}

// Does a cell hold a value?
fn is_value(cell: &[u8]) -> bool
    ensures { result ≡ is_value cell.now }
{
    read_cell(cell).is_some()
}
