// The board of an accepted call (01, board): the slots, behind them the star remainder's values, then the named remainder's pairs.
// Reworked from starlark 0.14.2, src/eval/runtime/params/spec.rs (collect_slow), Apache-2.0.
ghost use Rattle.std.specs.Prelude.{◌≡◌, List, ℕ, ◌+◌, ◌*◌, ◌≤◌, length};
ghost use Rattle.rules.specs.Cells.{write_each};
ghost use Rattle.rules.specs.Board.{named_cells};
ghost use Rattle.cells.specs.Out.{stored};
ghost use Rattle.calls.specs.Head.{head_of};
ghost use Rattle.findings.specs.Entries.{held_names};
ghost use Rattle.slots.specs.Board.{RestHeld, BoardReady, BoardWritten};

use crate::slots::write_slots;
use answers::answer::Counts;
use builder::spec::ParametersSpec;
use calls::head::{Call, PAIR, VALUE};
use calls::values::write_values;
use cells::out::put_inside;
use cells::record::pair_at;
use findings::resolve::Resolution;

// All of it, and how much there is of each part.
pub fn write_board(
    list: &ParametersSpec,
    call: &Call,
    resolved: &Resolution,
    board: &mut [u64],
) -> Counts
    requires { BoardReady list.now call.now.cells.now (head_of call.now.head) resolved.now.rest resolved.now.count board.old }
    ensures { BoardWritten list.now call.now.cells.now (head_of call.now.head) resolved.now.next resolved.now.sources resolved.now.rest resolved.now.count board.old board.new result }
{
    let len = list.params.len;
    let positional = list.indices.num_positional;
    let star = (call.head.p + call.head.s).saturating_sub(positional);
    let filled = write_slots(&list.params, call, resolved, star, board);
    write_values(call, positional, star, VALUE * len, board);
    write_named(call.cells, resolved, VALUE * len + VALUE * star, board);
    Counts {
        taken: filled.taken,
        defaulted: filled.defaulted,
        star,
        named: resolved.count,
    }
}

// The pairs of the named remainder, stored from cell `at` on.
pub fn write_named(cells: &[u64], resolved: &Resolution, at: usize, board: &mut [u64])
    requires { RestHeld cells.now resolved.now.rest resolved.now.count × (at + 4 * resolved.now.count ≤ length board.old) }
    ensures { (area : List ℕ) → board.new ≡ stored board.old at (write_each named_cells (held_names area cells.now resolved.now.rest resolved.now.count)) }
{
    for (k, pair) in resolved.rest[..resolved.count].iter().enumerate() {
        let to = at + PAIR * k;
        put_inside(board, to, pair_at(cells, *pair));
        put_inside(board, to + VALUE, pair_at(cells, *pair + VALUE));
    }
}
