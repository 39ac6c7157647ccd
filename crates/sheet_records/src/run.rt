// The cells that the rows of a sheet add to its record (01, cells, texts and records). In a parameter sheet each row is a step; in a
// call the rows of one part are `wanted` at a time.
ghost use Rattle.std.specs.Prelude.{◌≡◌, cond, ◌+◌, ◌≤◌, ltb, length};
ghost use Rattle.std.specs.Option.{is_some};
ghost use Rattle.rules.specs.Text.{payload_of};
ghost use Rattle.rules.specs.Value.{value_cells};
ghost use Rattle.rules.specs.SheetRecords.{area_of};
ghost use Rattle.cells.specs.Value.{pair_of};
ghost use Rattle.sheet_lines.specs.Row.{row_of};
ghost use Rattle.sheet_lines.specs.Word.{part_read};
ghost use Rattle.sheet_records.specs.RowsLeft.{rows_left};
ghost use Rattle.sheet_records.specs.Sheet.{is_call};
ghost use Rattle.sheet_records.specs.Text.{row_texts};
ghost use Rattle.sheet_records.specs.Run.{key_cells, last_value, row_cells, run_from, Opens, Added};

use crate::cell::{payload_of, value_at};
use crate::rows::Rows;
use crate::sheet::{CALL_TEXT, Sheet, is_part};
use cells::out::put_inside;
use cells::value::Pair;
use sheet_lines::row::Row;
use sheet_lines::word::{CallPart, code_of};

// Lent cells, and where the next ones are stored.
#[derive(Drop)]
pub(crate) struct Run<'a> {
    pub(crate) cells: &'a mut [u64],
    pub(crate) next: usize,
}

impl<'a> Run<'a> {
    // From one of the lent cells on.
    pub(crate) fn new(cells: &'a mut [u64], next: usize) -> Run<'a>
        ensures { Opens cells.entry next result }
    {
        Run { cells, next }
    }

    // The cells of some rows, the first of whose texts lies at `text`. Each row's texts lie behind those of all rows before it, wanted or
    // not.
    pub(crate) fn write_rows(&mut self, wanted: Option<CallPart>, rows: Rows, text: usize)
        requires { (text + length (area_of (row_texts (is_some wanted)) (rows_left rows)) ≤ 16384) × (self.old.next + length (run_from (is_some wanted) (part_read wanted) text (rows_left rows)) ≤ length self.old.cells.now) }
        ensures { Added (run_from (is_some wanted) (part_read wanted) text (rows_left rows.entry)) self.old self.new }
    {
        let sheet = Sheet::of(wanted);
        let mut start = text;
        for row in rows {
            self.write_row(wanted, row, start);
            start += sheet.texts_len(row);
        }
    }

    // The cells of a row whose texts lie at `text`: none if it is not wanted.
    fn write_row(&mut self, wanted: Option<CallPart>, row: Row, text: usize)
        requires { (text ≤ 16384) × (self.old.next + length (row_cells (is_some wanted) (part_read wanted) text (row_of row)) ≤ length self.old.cells.now) }
        ensures { Added (row_cells (is_some wanted) (part_read wanted) text (row_of row.entry)) self.old self.new }
    {
        if let Some(part) = wanted {
            if !is_part(part, row.part) {
                return;
            }
        }
        self.write_key(wanted, row, text);
        self.write_value(Sheet::of(wanted), row, text);
    }

    // The two cells before a row's value: the code and the name of a step, the name of a named value, the key of an entry. No other
    // value has any.
    fn write_key(&mut self, wanted: Option<CallPart>, row: Row, text: usize)
        requires { (text ≤ 16384) × (self.old.next + length (key_cells (is_some wanted) (part_read wanted) text (row_of row)) ≤ length self.old.cells.now) }
        ensures { Added (key_cells (is_some wanted) (part_read wanted) text (row_of row.entry)) self.old self.new }
    {
        let pair = match wanted {
            None => {
                let code = code_of(row.part);
                Pair::new(code, step_name(code, text, row.name.len()))
            }
            Some(part) => match part {
                CallPart::Named => Pair::new(CALL_TEXT, payload_of(text, row.name.len())),
                CallPart::Entry => value_at(CALL_TEXT, row.name, text),
                _ => return,
            },
        };
        self.put(pair);
    }

    // A row's value: its text, if it is one, lies behind the text of the row's name or key.
    fn write_value(&mut self, sheet: Sheet, row: Row, text: usize)
        requires { (text ≤ 16384) × (self.old.next + 2 ≤ length self.old.cells.now) }
        ensures { Added (value_cells (last_value (is_call sheet) text (row_of row.entry))) self.old self.new }
    {
        let start = text + sheet.name_text(row).len();
        self.put(value_at(sheet.text_kind(), row.value, start));
    }

    #[tactic(auto, unfolding(rules::specs::Value::value_cells))]
    fn put(&mut self, pair: Pair)
        requires { self.old.next + 2 ≤ length self.old.cells.now }
        ensures { Added (value_cells (pair_of pair)) self.old self.new }
    {
        put_inside(self.cells, self.next, pair);
        self.next += 2;
    }
}

// The name's cell of a step: only codes 1 to 3 have one.
#[tactic(auto, using(std::proofs::lemmas::Bool::Decides::nat_tests))]
fn step_name(code: u64, text: usize, size: usize) -> u64
    requires { (size ≤ 255) × (text ≤ 65535) }
    ensures { result ≡ cond (ltb code 4) (payload_of text size) 0 }
{
    if code < 4 { payload_of(text, size) } else { 0 }
}
