// The records that two sheets describe (01, sheets and the program bind): out of the rows of a sheet that was judged right, the
// cells of its record and the texts that its area holds.
#![tactic(auto)]

ghost use Rattle.std.specs.Prelude.{◌+◌, ◌≤◌, length};
ghost use Rattle.sheet_lines.specs.Header.{columns_of};
ghost use Rattle.sheet_records.specs.Rows.{rows_from, all_rows};
ghost use Rattle.sheet_records.specs.RowsLeft.{rows_left};
ghost use Rattle.sheet_records.specs.Run.{Added};
ghost use Rattle.sheet_records.specs.Call.{parts_from};
ghost use Rattle.sheet_records.specs.Written.{ParametersReady, ParametersWritten, CallReady, CallWritten};

use crate::cell::payload_of;
use crate::rows::Rows;
use crate::run::Run;
use crate::sheet::Sheet;
use crate::texts::write_texts;
use calls::head::{HEAD, Head};
use sheet_lines::header::Columns;
use sheet_lines::lines::Lines;
use sheet_lines::word::CallPart;

pub mod cell;
pub mod rows;
pub mod run;
pub mod sheet;
pub mod texts;

// The parts of a call record in their order.
const PARTS: [CallPart; 4] = [
    CallPart::Positional,
    CallPart::Named,
    CallPart::Item,
    CallPart::Entry,
];

// How many cells and how many bytes a record takes.
#[derive(Clone, Copy, Debug, PartialEq, Eq)]
pub struct Written {
    pub cells: usize,
    pub bytes: usize,
}

// The record of a parameter sheet whose first row, `def`, stands at `from`: the function's name, then a step for each other row.
pub fn write_parameters(
    input: &[u8],
    columns: Columns,
    from: usize,
    rows: usize,
    cells: &mut [u64],
    area: &mut [u8],
) -> Written
    requires { ParametersReady input.now (columns_of columns) from rows cells.old area.old }
    ensures { ParametersWritten (rows_from input.now (columns_of columns) from rows) cells.old cells.new area.old area.new result }
{
    let lines = Lines { input, at: from };
    let all = Rows {
        lines,
        columns,
        rows,
    };
    let mut steps = all;
    let def = steps.next().unwrap();
    cells[0] = payload_of(0, def.name.len());
    let text = Sheet::Parameters.texts_len(def);
    let mut run = Run::new(cells, 1);
    run.write_rows(None, steps, text);
    let bytes = write_texts(Sheet::Parameters, all, area);
    Written {
        cells: run.next,
        bytes,
    }
}

// The record of a call sheet whose rows stand from `from` to the input's end: the head, then one part after the other.
pub fn write_call(
    input: &[u8],
    columns: Columns,
    from: usize,
    counts: Head,
    cells: &mut [u64],
    area: &mut [u8],
) -> Written
    requires { CallReady input.now (columns_of columns) from counts cells.old area.old }
    ensures { CallWritten (all_rows input.now (columns_of columns) from) cells.old cells.new area.old area.new result }
{
    let lines = Lines { input, at: from };
    let rows = lines.count();
    let all = Rows {
        lines,
        columns,
        rows,
    };
    counts.write(cells);
    let mut run = Run::new(cells, HEAD);
    write_parts(all, &mut run);
    let bytes = write_texts(Sheet::Call, all, area);
    Written {
        cells: run.next,
        bytes,
    }
}

// The parts of a record, one after the other, from the rows of a call.
fn write_parts(rows: Rows, run: &mut Run)
    requires { run.old.next + length (parts_from (rows_left rows) 0 4) ≤ length run.old.cells.now }
    ensures { Added (parts_from (rows_left rows.entry) 0 4) run.old run.new }
{
    for part in PARTS {
        run.write_rows(Some(part), rows, 0);
    }
}
