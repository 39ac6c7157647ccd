// The parameter sheet of an input (01, sheets): its header and its rows, up to the blank line behind them, or the line that breaks a rule.
ghost use Rattle.std.specs.Prelude.{◌≡◌};
ghost use Rattle.sheet_lines.specs.Header.{columns_of};
ghost use Rattle.sheet_judge.specs.Read.{line_fits, StepsRead, ParametersRead};

use crate::BadLine;
use crate::row::parameter_row_right;
use sheet_lines::header::{Columns, read_header};
use sheet_lines::lines::Lines;
use sheet_lines::row::Row;

#[derive(Clone, Copy, Debug, PartialEq, Eq)]
pub struct ParameterPlaces {
    pub columns: Columns,
    // Where the first row begins.
    pub from: usize,
    pub rows: usize,
    // Where the line behind the blank one begins.
    pub next: usize,
}

// The rows alone, `def` and its steps: how many, and where the line behind the blank one begins.
#[derive(Clone, Copy, Debug, PartialEq, Eq)]
struct Steps {
    rows: usize,
    next: usize,
}

// The line of the first row: the header stands on line 1.
const FIRST_ROW: usize = 2;

pub(crate) fn read_parameters(input: &[u8]) -> Result<ParameterPlaces, BadLine>
    ensures { ParametersRead input.now result }
{
    let mut lines = Lines { input, at: 0 };
    let header = lines.next().ok_or(BadLine(1))?;
    let columns = read_header(header).ok_or(BadLine(1))?;
    let steps = read_steps(lines, columns)?;
    Ok(ParameterPlaces {
        columns,
        from: lines.at,
        rows: steps.rows,
        next: steps.next,
    })
}

// The rows ahead, up to a blank line; the sheet has one row at least. Where the input ends first, the line that is not there is the
// bad one.
fn read_steps(lines: Lines, columns: Columns) -> Result<Steps, BadLine>
    ensures { StepsRead (columns_of columns) lines.entry.input.now lines.entry.at result }
{
    let mut rest = lines;
    let mut rows = 0;
    while let Some(line) = rest.next() {
        if line.is_empty() {
            if rows == 0 {
                return Err(BadLine(FIRST_ROW));
            }
            return Ok(Steps {
                rows,
                next: rest.at,
            });
        }
        if !line_right(line, columns, rows) {
            return Err(BadLine(rows + FIRST_ROW));
        }
        rows += 1;
    }
    Err(BadLine(rows + FIRST_ROW))
}

// One line, behind so many rows.
fn line_right(line: &[u8], columns: Columns, rows: usize) -> bool
    ensures { result ≡ line_fits (columns_of columns) rows line.now }
{
    match Row::read(line, columns) {
        Some(row) => parameter_row_right(rows, row),
        None => false,
    }
}
