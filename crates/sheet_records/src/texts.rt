// The area of a sheet (01, sheets; cells, texts and records): the texts of its rows one behind the other.
ghost use Rattle.std.specs.Prelude.{◌+◌, ◌≤◌, length};
ghost use Rattle.rules.specs.SheetRecords.{area_of};
ghost use Rattle.cells.specs.Out.{Put, Wrote};
ghost use Rattle.sheet_lines.specs.Row.{row_of};
ghost use Rattle.sheet_records.specs.RowsLeft.{rows_left};
ghost use Rattle.sheet_records.specs.Sheet.{is_call};
ghost use Rattle.sheet_records.specs.Text.{row_texts};

use crate::cell::text_of;
use crate::rows::Rows;
use crate::sheet::Sheet;
use cells::out::Cursor;
use sheet_lines::row::Row;

// The texts of some rows, stored from byte 0 on, and where they end.
pub(crate) fn write_texts(sheet: Sheet, rows: Rows, area: &mut [u8]) -> usize
    requires { 16384 ≤ length area.old }
    ensures { Put (area_of (row_texts (is_call sheet)) (rows_left rows.entry)) 0 area.old area.new result }
{
    let mut texts = Cursor::new(area);
    for row in rows {
        write_row_texts(sheet, row, &mut texts);
    }
    texts.at
}

// A row's texts, behind those of the rows before it.
#[tactic(auto, using(crate::proofs::LawsFit::texts_length))]
fn write_row_texts(sheet: Sheet, row: Row, texts: &mut Cursor)
    requires { texts.old.at + length (row_texts (is_call sheet) (row_of row)) ≤ length texts.old.out.now }
    ensures { Wrote (row_texts (is_call sheet) (row_of row.entry)) texts.old texts.new }
{
    texts.write(sheet.name_text(row));
    texts.write(text_of(row.value));
}
