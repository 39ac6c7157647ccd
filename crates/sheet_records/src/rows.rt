// The rows of a sheet that was judged right, one by one (01, sheets): each is what its line holds.
ghost use Rattle.sheet_lines.specs.Header.{columns_of};
ghost use Rattle.sheet_records.specs.Rows.{RowsAhead};

use sheet_lines::header::Columns;
use sheet_lines::lines::Lines;
use sheet_lines::row::Row;

// The rows in the next `rows` lines.
#[derive(Clone, Copy, Debug)]
pub(crate) struct Rows<'a> {
    pub(crate) lines: Lines<'a>,
    pub(crate) columns: Columns,
    pub(crate) rows: usize,
    ghost ahead: { RowsAhead lines.input.now (columns_of columns) lines.at rows },
}

impl<'a> Iterator for Rows<'a> {
    ghost use Rattle.std.specs.Iterator.{YieldsFirstBy, at_most};
    ghost use Rattle.sheet_lines.specs.Row.{row_of};
    ghost use Rattle.sheet_records.specs.RowsLeft.{rows_left};

    type Item = Row<'a>;

    ghost next_gives = { YieldsFirstBy row_of rows_left };

    ghost remaining = { λ s. at_most s.rows };

    fn next(&mut self) -> Option<Row<'a>> {
        if self.rows == 0 {
            return None;
        }
        let mut lines = self.lines;
        let line = lines.next().unwrap();
        let row = Row::read(line, self.columns).unwrap();
        *self = Rows {
            lines,
            columns: self.columns,
            rows: self.rows - 1,
        };
        Some(row)
    }
}
