// Values of a call written into lent cells (01, board and accessors).
ghost use Rattle.std.specs.Prelude.{◌≡◌, ◌+◌, ◌*◌, ◌≤◌, length, take, drop};
ghost use Rattle.rules.specs.Cells.{write_each};
ghost use Rattle.rules.specs.Value.{value_cells};
ghost use Rattle.cells.specs.Record.{pair_at};
ghost use Rattle.cells.specs.Listed.{listed};
ghost use Rattle.cells.specs.Out.{stored};
ghost use Rattle.calls.specs.Head.{head_of, Few};
ghost use Rattle.calls.specs.Values.{values_in};

use crate::head::{Call, HEAD, PAIR, VALUE};
use crate::place::position_at;
use cells::out::put_inside;
use cells::record::pair_at;
use cells::value::Pair;

// `count` values of P from number `from` on, stored from cell `at` on.
pub fn write_values(call: &Call, from: usize, count: usize, at: usize, board: &mut [u64])
    requires { (from ≤ 128) × (at + 2 * count ≤ length board.old) }
    ensures { board.new ≡ stored board.old at (write_each value_cells (values_in call.now.cells.now (head_of call.now.head) from count)) }
{
    for k in 0..count {
        let position = position_at(call.head, from + k);
        put_inside(board, at + VALUE * k, pair_at(call.cells, position));
    }
}

// The written values of a record, which stand side by side, stored from cell 0 on.
pub fn copy_written(call: &Call, board: &mut [u64])
    requires { Few 64 (head_of call.now.head) × (6 + 2 * call.now.head.p ≤ length call.now.cells.now) × (2 * call.now.head.p ≤ length board.old) }
    ensures { board.new ≡ stored board.old 0 (write_each value_cells (values_in call.now.cells.now (head_of call.now.head) 0 call.now.head.p)) }
{
    copy_values(call.cells, HEAD, call.head.p, 0, board);
}

// The cells of `count` values that stand side by side from a cell on, stored from cell `at` on.
pub fn copy_values(cells: &[u64], from: usize, count: usize, at: usize, board: &mut [u64])
    requires { (count ≤ 128) × (from + 2 * count ≤ length cells.now) × (at + 2 * count ≤ length board.old) }
    ensures { board.new ≡ stored board.old at (take (2 * count) (drop from cells.now)) }
{
    // One by one, as `write_bytes` does.
    for k in 0..VALUE * count {
        board[at + k] = cells[from + k];
    }
}

// The values of `count` pairs that stand side by side from a cell on, stored from cell `at` on.
pub fn copy_named(cells: &[u64], from: usize, count: usize, at: usize, board: &mut [u64])
    requires { (count ≤ 64) × (from + 4 * count ≤ length cells.now) × (at + 2 * count ≤ length board.old) }
    ensures { board.new ≡ stored board.old at (write_each value_cells (listed (λ k. pair_at cells.now (from + 4 * k + 2)) 0 count)) }
{
    for k in 0..count {
        let value = from + PAIR * k + VALUE;
        let pair = Pair::new(cells[value], cells[value + 1]);
        put_inside(board, at + VALUE * k, pair);
    }
}
