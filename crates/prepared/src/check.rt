// Are some cells a prepared list? They come from outside, so all of it is asked each time: the front, every row, and that no nameable
// name comes twice.
ghost use Rattle.std.specs.Prelude.{◌≡◌, ◌&&◌, [], ◌+◌, ◌*◌, ◌≤◌, length};
ghost use Rattle.rules.specs.Text.{bytes_at};
ghost use Rattle.rules.specs.Lookup.{names, known};
ghost use Rattle.rules.specs.Passed.{names_apart};
ghost use Rattle.cells.specs.Listed.{listed};
ghost use Rattle.prepared.specs.Prepared.{is_prepared, rows_right};
ghost use Rattle.prepared.specs.Rows.{row_at, param_at, Keyed};

use crate::row::{FRONT, KEY, NAME, ROW, STYLE, row_at, style_after};
use builder::params::{CAPACITY, bytes_at, may_be_named};
use builder::record::is_name;
use calls::slot::SLOTS;
use cells::record::{Record, cell};
use cells::text::same;

// The head first, and then the rows.
pub fn is_prepared(list: &Record) -> bool
    ensures { result ≡ is_prepared list.now.area.now list.now.cells.now }
{
    let count = cell(list.cells, 0);
    if (CAPACITY as u64) < count {
        return false;
    }
    let n = count as usize;
    FRONT + ROW * n <= list.cells.len() && is_name(list.area, list.cells[1]) && rows_right(list, n)
}

// Each of the n rows is right by itself, none stands under a style that comes before the one that the row before it leads to, and no nameable
// name comes twice. Equal names have one slot: a name whose slot is unused so far is new, and only another one is compared with those before.
fn rows_right(list: &Record, n: usize) -> bool
    requires { 2 + 6 * n ≤ length list.now.cells.now }
    ensures { result ≡ (rows_right list.now.area.now 0 (listed (row_at list.now.cells.now) 0 n) && names_apart [] (listed (param_at list.now.area.now list.now.cells.now) 0 n)) }
{
    let mut used: [bool; SLOTS] = [false; SLOTS];
    let mut least: u64 = 0;
    for i in 0..n {
        let row = row_at(list.cells, i);
        if row.style < least || !row.is_right(list.area) {
            return false;
        }
        if may_be_named(row.step.code, row.style) {
            let slot = row.slot(list.area);
            if used[slot] && known_before(list, i) {
                return false;
            }
            used[slot] = true;
        }
        least = style_after(row.step.code, row.style);
    }
    true
}

// Is row i's name that of a nameable row before it? Equal names have equal keys, so only rows with its key are looked at further.
fn known_before(list: &Record, i: usize) -> bool
    requires { Keyed list.now.area.now list.now.cells.now (i + 1) }
    ensures { result ≡ known (listed (param_at list.now.area.now list.now.cells.now) 0 i) (bytes_at list.now.area.now (row_at list.now.cells.now i).step.name) }
{
    let at = FRONT + ROW * i;
    let key = list.cells[at + KEY];
    let bytes = bytes_at(list.area, list.cells[at + NAME]);
    (0..i).any(|j| list.cells[FRONT + ROW * j + KEY] == key && is_named(list, j, bytes))
}

// Is row j nameable, and by these bytes?
fn is_named(list: &Record, j: usize, bytes: &[u8]) -> bool
    requires { 8 + 6 * j ≤ length list.now.cells.now }
    ensures { result ≡ names bytes.now (param_at list.now.area.now list.now.cells.now j) }
{
    let cells = list.cells;
    let at = FRONT + ROW * j;
    may_be_named(cells[at], cells[at + STYLE]) && same(bytes, bytes_at(list.area, cells[at + NAME]))
}
