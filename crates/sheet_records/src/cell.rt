// The values in the cells of a row (01, sheets; cells, texts and records): each by the two cells of a record that it becomes. A
// text stands in its sheet's area, wherever the rows before it left room.
ghost use Rattle.std.specs.Prelude.{◌≡◌, ◌≤◌, length};
ghost use Rattle.rules.specs.Text.{payload_of};
ghost use Rattle.rules.specs.SheetValue.{read_cell};
ghost use Rattle.rules.specs.SheetRecords.{text_of, value_at};
ghost use Rattle.cells.specs.Value.{pair_of};

use cells::text::Text;
use cells::value::Pair;
use sheet_values::read::{Cell, read_cell};

// The bytes that a cell brings into its area: a text's.
pub(crate) fn text_of<'a>(cell: &'a [u8]) -> &'a [u8]
    ensures { result.now ≡ text_of (read_cell cell.now) }
{
    match read_cell(cell) {
        Some(Cell::Text) => &cell[1..],
        _ => &[],
    }
}

// A value by its two cells: its text, if it is one, is of the kind that the sheet's texts are and lies at `start`.
#[tactic(auto, unfolding(rules::specs::Value::no_value))]
pub(crate) fn value_at(kind: u64, cell: &[u8], start: usize) -> Pair
    requires { (length cell.now ≤ 255) × (start ≤ 65535) }
    ensures { pair_of result ≡ value_at kind start (read_cell cell.now) }
{
    match read_cell(cell) {
        Some(Cell::Value(v)) => Pair::from(v),
        Some(Cell::Text) => Pair::new(kind, payload_of(start, cell.len() - 1)),
        None => Pair::new(0, 0),
    }
}

// The payload of a text of `size` bytes.
pub(crate) fn payload_of(start: usize, size: usize) -> u64
    requires { (size ≤ 255) × (start ≤ 65535) }
    ensures { result ≡ payload_of start size }
{
    Text {
        start: start as u16,
        len: size as u8,
    }
    .payload()
}
