// Collection (01, collector): a call bound against a parameter list, and its values put on the board. All questions are asked before the
// first cell is written, so a refusal leaves the board as it was.
// Reworked from starlark 0.14.2, src/eval/runtime/params/spec.rs (collect_inline_impl, collect_slow), Apache-2.0.
ghost use Rattle.std.specs.Prelude.{◌≡◌, Ok};
ghost use Rattle.rules.specs.Collection.{collection};
ghost use Rattle.builder.specs.Params.{parameters_in};
ghost use Rattle.calls.specs.Head.{head_of};
ghost use Rattle.findings.specs.Resolve.{Prepared};
ghost use Rattle.collector.specs.Collect.{Ends, bound_to, is_short, InlineReady, InlineEnds, OpenReady, SlowReady, SlowEnds};

use answers::answer::{Counts, Refusal};
use builder::build;
use builder::spec::ParametersSpec;
use calls::ask_keys;
use calls::head::{Call, Head, named_from};
use calls::values::copy_written;
use cells::question::Question;
use cells::record::Record;
use findings::resolve::{NAMED, Resolution, resolve_names};
use questions::questions::judge;
use slots::board::write_board;

// A board holds 64 slots, a star remainder of 128 values and a named remainder of 128 pairs.
pub const BOARD: usize = 896;

// The records as they are lent, of any cells and bytes: the list is built, and the call bound against it.
pub fn collect(spec: &Record, call: &Record, board: &mut [u64]) -> Result<Counts, Refusal>
    ensures { Ends (collection 64 64 spec.now.cells.now spec.now.area.now call.now.cells.now call.now.area.now board.old) board.old board.new result }
{
    let list = build(spec)?;
    bind(&list, call, board)
}

// A call against a list that `build` handed out: the step behind `collect` and `bind` of sheets. What it requires, `build` promises of each list.
// Who binds against one list again and again has `prepared` for it, which requires nothing. 9 to 12 come first, and then the short path where it
// applies: it is for calls without names, so that 13 has nothing to ask.
pub fn bind(list: &ParametersSpec, record: &Record, board: &mut [u64]) -> Result<Counts, Refusal>
    requires { Prepared list.now.area.now list.now }
    ensures { Ends (bound_to (parameters_in list.now.area.now list.now.params) record.now.cells.now record.now.area.now board.old) board.old board.new result }
{
    ask_keys(record)?;
    let call = Call::new(record);
    if !is_short(list.indices.num_positional, list.params.len, call.head) {
        return collect_open(list, &call, board);
    }
    if board.len() < BOARD {
        return Err(Refusal::Record(Question::ShortBoard));
    }
    Ok(collect_inline(&call, board))
}

// Does the short path apply? Of the list no more is asked than how many parameters it has and how many are positional.
fn is_short(positional: usize, len: usize, h: Head) -> bool
    ensures { result ≡ is_short positional len (head_of h) }
{
    h.p == positional && positional == len && h.n == 0 && h.star_kind == 0 && h.double_kind == 0
}

// The short path: each value is its parameter's slot.
fn collect_inline(call: &Call, board: &mut [u64]) -> Counts
    requires { InlineReady call.now.cells.now (head_of call.now.head) board.old }
    ensures { InlineEnds call.now.cells.now (head_of call.now.head) board.old board.new (Ok result) }
{
    copy_written(call, board);
    Counts {
        taken: call.head.p,
        defaulted: 0,
        star: 0,
        named: 0,
    }
}

// A call that passed 9 to 12 and that the short path isn't for: 13, by what its names are found to mean, then 14 and the general path.
pub fn collect_open(
    list: &ParametersSpec,
    call: &Call,
    board: &mut [u64],
) -> Result<Counts, Refusal>
    requires { OpenReady list.now.area.now list.now call.now.cells.now call.now.area.now (head_of call.now.head) }
    ensures { Ends (bound_to (parameters_in list.now.area.now list.now.params) call.now.cells.now call.now.area.now board.old) board.old board.new result }
{
    let h = call.head;
    let next = (h.p + h.s).min(list.indices.num_positional);
    let mut resolved = Resolution {
        sources: [0; 64],
        rest: [0; NAMED],
        count: 0,
        next,
    };
    resolve_names(list, call, named_from(h), h.n, &mut resolved)?;
    if board.len() < BOARD {
        return Err(Refusal::Record(Question::ShortBoard));
    }
    collect_slow(list, call, &mut resolved, board)
}

// The general path, of a call whose written names are resolved: 15 to 24, and then the board.
fn collect_slow(
    list: &ParametersSpec,
    call: &Call,
    resolved: &mut Resolution,
    board: &mut [u64],
) -> Result<Counts, Refusal>
    requires { SlowReady list.now.area.now list.now call.now.cells.now call.now.area.now (head_of call.now.head) resolved.old.next resolved.old.sources resolved.old.rest resolved.old.count board.old }
    ensures { SlowEnds list.now.area.now list.now call.now.cells.now call.now.area.now board.old board.new result }
{
    judge(list, call, resolved)?;
    Ok(write_board(list, call, resolved, board))
}
