// The rows of a sheet (01, sheets): three cells in the order that the header gave.
ghost use Rattle.std.specs.Prelude.{◌≡◌, [], ◌≤◌, length, get_or};
ghost use Rattle.sheet_lines.specs.Line.{cells_of};

use crate::header::Columns;
use crate::line::{Cells, three_cells};

// A row's cells, each short enough.
#[derive(Clone, Copy, Debug)]
pub struct Row<'a> {
    pub part: &'a [u8],
    pub name: &'a [u8],
    pub value: &'a [u8],
    pub ghost name_short: { length name.now ≤ 255 },
    pub ghost value_short: { length value.now ≤ 255 },
}

impl<'a> Row<'a> {
    ghost use Rattle.sheet_lines.specs.Header.{columns_of};
    ghost use Rattle.sheet_lines.specs.Row.{RowIs};

    // The row that a line is, if it has three cells that are short enough.
    pub fn read(line: &'a [u8], columns: Columns) -> Option<Row<'a>>
        ensures { RowIs (columns_of columns) line.now result }
    {
        let cells = three_cells(line)?;
        let part = cell_at(cells, columns.part);
        let name = cell_at(cells, columns.name);
        let value = cell_at(cells, columns.value);
        Some(Row { part, name, value })
    }
}

// A line's cell by its index. One past the third is not there, and is empty.
fn cell_at<'a>(cells: Cells<'a>, index: usize) -> &'a [u8]
    ensures { result.now ≡ get_or (cells_of cells.entry) index [] }
{
    match index {
        0 => cells.first,
        1 => cells.second,
        2 => cells.third,
        _ => &[],
    }
}
