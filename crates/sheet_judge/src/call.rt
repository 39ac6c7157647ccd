// The call sheet of an input (01, sheets): its header and its rows, up to the input's end, or the line that breaks a rule.
ghost use Rattle.std.specs.Prelude.{◌≡◌, ◌+◌, ◌≤◌};
ghost use Rattle.rules.specs.SheetInput.{input_most};
ghost use Rattle.calls.specs.Head.{head_of, Few};
ghost use Rattle.sheet_lines.specs.Header.{columns_of};
ghost use Rattle.sheet_judge.specs.Read.{counted_in, ValuesRead, CallRead};

use crate::BadLine;
use crate::counts::counts_after;
use crate::row::call_row_right;
use calls::head::Head;
use sheet_lines::header::{Columns, read_header};
use sheet_lines::lines::Lines;
use sheet_lines::row::Row;
use sheet_lines::word::call_part;

#[derive(Clone, Copy, Debug, PartialEq, Eq)]
pub struct CallPlaces {
    pub columns: Columns,
    // Where the first row begins.
    pub from: usize,
    pub counts: Head,
}

// The sheet in the lines ahead, its header line `line` of the input.
pub(crate) fn read_call(lines: Lines, line: usize) -> Result<CallPlaces, BadLine>
    requires { line ≤ input_most }
    ensures { CallRead lines.entry.input.now lines.entry.at line result }
{
    let mut rows = lines;
    let header = rows.next().ok_or(BadLine(line))?;
    let columns = read_header(header).ok_or(BadLine(line))?;
    let counts = read_values(rows, columns, line + 1)?;
    Ok(CallPlaces {
        columns,
        from: rows.at,
        counts,
    })
}

// What the rows ahead count, the first of them line `first`. Bytes behind the last byte 10 are a line that is not ended.
fn read_values(lines: Lines, columns: Columns, first: usize) -> Result<Head, BadLine>
    requires { first ≤ input_most + 1 }
    ensures { ValuesRead (columns_of columns) lines.entry.input.now lines.entry.at first result }
{
    let mut rest = lines;
    let mut number = first;
    let mut counts = Head::none();
    while let Some(line) = rest.next() {
        counts = count_line(line, columns, counts).ok_or(BadLine(number))?;
        number += 1;
    }
    if rest.at < rest.input.len() {
        return Err(BadLine(number));
    }
    Ok(counts)
}

// One line, behind rows of these counts: the counts with it, if it is right.
fn count_line(line: &[u8], columns: Columns, counts: Head) -> Option<Head>
    requires { Few 64 (head_of counts) }
    ensures { result ≡ counted_in (columns_of columns) counts line.now }
{
    let row = Row::read(line, columns)?;
    let part = call_part(row.part)?;
    if !call_row_right(counts, part, row.name, row.value) {
        return None;
    }
    Some(counts_after(counts, part, row.value))
}
