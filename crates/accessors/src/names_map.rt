// All named values, those written out and those of the dictionary (01, accessors; the Rust's `names_map`).
// Reworked from starlark 0.14.2, src/eval/runtime/arguments.rs, Apache-2.0.
ghost use Rattle.std.specs.Prelude.{◌≡◌, List, ℕ, ◌*◌, ◌≤◌, length};
ghost use Rattle.rules.specs.Cells.{write_each};
ghost use Rattle.rules.specs.Board.{named_cells};
ghost use Rattle.rules.specs.Accessors as rules;
ghost use Rattle.cells.specs.Out.{stored};
ghost use Rattle.calls.specs.Head.{head_of};
ghost use Rattle.calls.specs.Named.{names_in};
ghost use Rattle.accessors.specs.Answer.{Accessing};
ghost use Rattle.accessors.specs.Entries.{NamesText};

use crate::answer::FunctionError;
use crate::ask::ask_writing;
use crate::entries::ask_entries;
use calls::head::{Call, PAIR, VALUE};
use calls::place::named_at;
use cells::out::put;
use cells::record::{Record, pair_at};

pub fn names_map(record: &Record, out: &mut [u64]) -> Result<usize, FunctionError>
    ensures { Accessing (rules.names_map 64 64 record.now.cells.now record.now.area.now out.old) (rules.names_map_cells record.now.cells.now record.now.area.now) out.old out.new result }
{
    ask_writing(record, out)?;
    let call = Call::new(record);
    let h = call.head;
    if h.double_kind == 2 {
        return Err(FunctionError::KwArgsIsNotDict);
    }
    ask_entries(&call)?;
    let count = h.n + h.d;
    write_named(&call, count, out);
    Ok(count)
}

// The first `count` pairs of N, stored from cell 0 on.
fn write_named(call: &Call, count: usize, out: &mut [u64])
    requires { NamesText call.now.cells.now (head_of call.now.head) count × (4 * count ≤ length out.old) }
    ensures { (area : List ℕ) → out.new ≡ stored out.old 0 (write_each named_cells (names_in area call.now.cells.now (head_of call.now.head) count)) }
{
    for k in 0..count {
        let pair = named_at(call.head, k);
        let to = PAIR * k;
        put(out, to, pair_at(call.cells, pair));
        put(out, to + VALUE, pair_at(call.cells, pair + VALUE));
    }
}
