// Calls whose arguments stand in the list's order, one for each parameter: the values of P for the first ones, and the pairs of N, each named
// after its own parameter, for the others. Of 12 to 24 only 14 can refuse them, and their slots are the values as they
// stand, so that no name has to be looked for and no table is needed.
ghost use Rattle.std.specs.Prelude.{◌≡◌, true, ℕ, ◌+◌, ◌*◌, ◌%◌, ◌<◌, ◌≤◌, length};
ghost use Rattle.rules.specs.Text.{bytes_at, inside, same_bytes};
ghost use Rattle.rules.specs.Value.{well_formed_key};
ghost use Rattle.rules.specs.CallRecord.{call_length};
ghost use Rattle.rules.specs.Collection.{call_of};
ghost use Rattle.cells.specs.Record.{pair_at};
ghost use Rattle.cells.specs.Text.{key_of};
ghost use Rattle.calls.specs.Head.{head_of, Few};
ghost use Rattle.prepared.specs.Prepared.{list_in};
ghost use Rattle.prepared.specs.Rows.{Keyed};
ghost use Rattle.prepared.specs.InOrder.{InOrder, OrderReady, positional_to, TurnReady, NamedAfter, InOrderEnds};

use crate::row::{FRONT, KEY, NAME, ROW, STYLE, key_of};
use answers::answer::{Counts, Refusal};
use builder::params::may_be_named;
use calls::head::{Call, HEAD, PAIR, VALUE, entries_from, items_from, named_from};
use calls::values::{copy_named, copy_values};
use cells::question::Question;
use cells::record::Record;
use cells::text::same_text;
use collector::collect::BOARD;

// Is each argument in its parameter's place? Entries are looked at before written names; any order would do.
pub(crate) fn in_order(list: &Record, call: &Call, len: usize) -> bool
    requires { OrderReady list.now.area.now list.now.cells.now call.now.cells.now call.now.area.now (head_of call.now.head) len }
    ensures { result ≡ true → InOrder (list_in list.now.area.now list.now.cells.now) (call_of call.now.cells.now call.now.area.now) }
{
    let h = call.head;
    let values = h.p + h.s;
    if values + h.n + h.d != len || h.star_kind == 2 || h.double_kind == 2 {
        return false;
    }
    takes_positions(list.cells, values)
        && named_in_turn(list, call, entries_from(h), h.d, values + h.n)
        && named_in_turn(list, call, named_from(h), h.n, values)
}

// Is the last of the first `count` rows positional? Then all of them are: the positional ones come first.
fn takes_positions(list: &[u64], count: usize) -> bool
    requires { 2 + 6 * count ≤ length list.now }
    ensures { result ≡ positional_to list.now count }
{
    if count == 0 {
        return true;
    }
    let at = FRONT + ROW * (count - 1);
    match list[at] {
        1..=3 => list[at + STYLE] < 2,
        _ => false,
    }
}

// Are the `count` pairs from a cell on named after the rows from number `row` on, each after its own? They are looked at from the last one
// back; any order would do.
fn named_in_turn(list: &Record, call: &Call, from: usize, count: usize, row: usize) -> bool
    requires { TurnReady list.now.area.now list.now.cells.now call.now.cells.now call.now.area.now from count row }
    ensures { result ≡ true → (k : ℕ) → k < count → NamedAfter list.now.area.now list.now.cells.now call.now.cells.now call.now.area.now (from + 4 * k) (row + k) }
{
    for k in (0..count).rev() {
        if !named_after(list, call, from + PAIR * k, row + k) {
            return false;
        }
    }
    true
}

// Is the pair at a cell named after a row?
fn named_after(list: &Record, call: &Call, pair: usize, row: usize) -> bool
    requires { Keyed list.now.area.now list.now.cells.now (row + 1) × (row < 64) × (pair + 2 ≤ length call.now.cells.now) × (well_formed_key call.now.area.now (pair_at call.now.cells.now pair) ≡ true) }
    ensures { result ≡ true → NamedAfter list.now.area.now list.now.cells.now call.now.cells.now call.now.area.now pair row }
{
    let rows = list.cells;
    let at = FRONT + ROW * row;
    let name = call.cells[pair + 1];
    let other = rows[at + NAME];
    // A key can be a whole number too.
    if call.cells[pair] != 6
        || name % 256 != other % 256
        || !may_be_named(rows[at], rows[at + STYLE])
        || rows[at + KEY] != key_of(call.area, name)
    {
        return false;
    }
    same_name(call.area, name, list.area, other)
}

// Are two names of one length and one key the same? A short one is known by its key; of a longer one all bytes are compared.
fn same_name(area: &[u8], name: u64, spec: &[u8], other: u64) -> bool
    requires { (inside area.now name ≡ true) × (inside spec.now other ≡ true) × (name % 256 ≡ other % 256) × (key_of (bytes_at area.now name) ≡ key_of (bytes_at spec.now other)) }
    ensures { result ≡ same_bytes (bytes_at area.now name) (bytes_at spec.now other) }
{
    name % 256 <= 8 || same_text(area, name, spec, other)
}

// 14, and then the values are put on the board as they stand: each is its parameter's slot.
pub(crate) fn collect_in_order(
    call: &Call,
    len: usize,
    board: &mut [u64],
) -> Result<Counts, Refusal>
    requires { Few 64 (head_of call.now.head) × (length call.now.cells.now ≡ call_length (head_of call.now.head)) × (call.now.head.p + call.now.head.s + call.now.head.n + call.now.head.d ≤ 64) }
    ensures { InOrderEnds call.now.cells.now (head_of call.now.head) len board.old board.new result }
{
    if board.len() < BOARD {
        return Err(Refusal::Record(Question::ShortBoard));
    }
    let cells = call.cells;
    let h = call.head;
    let values = h.p + h.s;
    copy_values(cells, HEAD, h.p, 0, board);
    copy_values(cells, items_from(h), h.s, VALUE * h.p, board);
    copy_named(cells, named_from(h), h.n, VALUE * values, board);
    copy_named(cells, entries_from(h), h.d, VALUE * (values + h.n), board);
    Ok(Counts {
        taken: len,
        defaulted: 0,
        star: 0,
        named: 0,
    })
}
