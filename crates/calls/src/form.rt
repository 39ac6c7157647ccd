// Questions 9 to 11 (01, the questions, call record), each put to the whole record. A value, a name or a key is well formed if
// reading its two cells gives one.
ghost use Rattle.std.specs.Prelude.{◌≡◌, Bool, true, ℕ, ◌+◌, ◌*◌, ◌<◌, ◌≤◌, length};
ghost use Rattle.rules.specs.Value.{Value, well_formed_argument};
ghost use Rattle.rules.specs.CallRecord.{pair_width, read_call};
ghost use Rattle.rules.specs.CallQuestions.{lengths_right, kind_right, kinds_right, parts_well_formed};
ghost use Rattle.calls.specs.Runs.{Tells, run_formed, pairs_formed};

use crate::head::{HEAD, PAIR, VALUE, entries_from, few, items_from, named_from, read_head};
use cells::record::Record;
use cells::value::{read_argument, read_key, read_name};

// 9. The counts are looked at before they are added up.
pub fn lengths_right(cells: &[u64]) -> bool
    ensures { result ≡ lengths_right 64 cells.now }
{
    let h = read_head(cells);
    few(h) && cells.len() == entries_from(h) + PAIR * h.d
}

// 10, of one star: its kind is 0, 1 or 2, and only kind 1 has anything in it.
fn kind_right(kind: u64, count: usize) -> bool
    ensures { result ≡ kind_right kind count }
{
    match kind {
        0 | 2 => count == 0,
        1 => true,
        _ => false,
    }
}

// 10.
pub fn kinds_right(cells: &[u64]) -> bool
    ensures { result ≡ kinds_right (read_call cells.now) }
{
    let h = read_head(cells);
    kind_right(h.star_kind, h.s) && kind_right(h.double_kind, h.d)
}

// 11.
pub(crate) fn parts_formed(record: &Record) -> bool
    requires { lengths_right 64 record.now.cells.now ≡ true }
    ensures { result ≡ parts_well_formed record.now.area.now (read_call record.now.cells.now) }
{
    let h = read_head(record.cells);
    values_formed(record, HEAD, VALUE, h.p)
        && pairs_formed(record, named_from(h), h.n, |kind, payload| {
            read_name(record.area, kind, payload).is_some()
        })
        && values_formed(record, items_from(h), VALUE, h.s)
        && pairs_formed(record, entries_from(h), h.d, |kind, payload| {
            read_key(record.area, kind, payload).is_some()
        })
}

// 11, of the `count` pairs from `from` on: names or keys, as `formed` asks, each with a value behind it.
fn pairs_formed<F: Fn(u64, u64) -> bool>(
    record: &Record,
    from: usize,
    count: usize,
    formed: F,
) -> bool
    requires within { from + pair_width * count ≤ length record.now.cells.now }
    requires formed { F.IsAlwaysCallable formed }
    ensures { (test : Value → Bool) → Tells (F.post formed) test → result ≡ pairs_formed test record.now.area.now record.now.cells.now from count }
{
    run_formed(record.cells, from, PAIR, count, formed)
        && values_formed(record, from + VALUE, PAIR, count)
}

// 11, of `count` values that begin `width` cells apart, from `from` on.
fn values_formed(record: &Record, from: usize, width: usize, count: usize) -> bool
    requires { (k : ℕ) → k < count → from + width * k + 2 ≤ length record.now.cells.now }
    ensures { result ≡ run_formed (well_formed_argument record.now.area.now) record.now.cells.now from width count }
{
    run_formed(record.cells, from, width, count, |kind, payload| {
        read_argument(record.area, kind, payload).is_some()
    })
}

// 11, of `count` values, names or keys that begin `width` cells apart, from `from` on, as `formed` asks of the two cells of each.
fn run_formed<F: Fn(u64, u64) -> bool>(
    cells: &[u64],
    from: usize,
    width: usize,
    count: usize,
    formed: F,
) -> bool
    requires within { (k : ℕ) → k < count → from + width * k + 2 ≤ length cells.now }
    requires formed { F.IsAlwaysCallable formed }
    ensures { (test : Value → Bool) → Tells (F.post formed) test → result ≡ run_formed test cells.now from width count }
{
    (0..count).all(|k| {
        let at = from + width * k;
        formed(cells[at], cells[at + 1])
    })
}
