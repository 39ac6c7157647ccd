// A list prepared once and bound against many times (01, collector): a record's list is laid out in lent cells, and calls are bound
// against the cells. They come back from outside, so they are asked before they are believed.
#![tactic(auto)]

ghost use Rattle.std.specs.Prelude.{◌≡◌};
ghost use Rattle.rules.specs.Answer.{fine};
ghost use Rattle.calls.specs.Head.{head_of};
ghost use Rattle.calls.specs.Keys.{ask_keys};
ghost use Rattle.answers.specs.declared.answer.Refusal.TheVariants.{Record};
ghost use Rattle.collector.specs.Collect.{Ends, bound_to};
ghost use Rattle.prepared.specs.Prepared.{list_in, bound_prepared};
ghost use Rattle.prepared.specs.Bind.{Preparing, EndsBound};
ghost use Rattle.prepared.specs.InOrder.{OrderReady};
ghost use Rattle.prepared.specs.declared.Unprepared.TheVariants.{List};
ghost use Rattle.prepared.specs.declared.PreparedRefusal.TheVariants.{Call};

use answers::answer::{Counts, Refusal};
use builder::build;
use builder::params::Parameters;
use builder::spec::ParametersSpec;
use calls::head::Call;
use calls::{ask_entries, ask_form};
use cells::question::Question;
use cells::record::{Record, cell};
use check::is_prepared;
use collector::collect::collect_open;
use in_order::{collect_in_order, in_order};
use load::{indices_in, load};
use row::{FRONT, ROW};
use write::write_list;

pub mod check;
pub mod in_order;
pub mod load;
pub mod row;
pub mod write;

// How many cells the longest list takes.
pub const PREPARED: usize = 386;

// Why no list is written.
#[derive(Clone, Copy, Debug, PartialEq, Eq)]
pub enum Unprepared {
    // 1 to 7
    List(Question),
    // fewer cells are lent than the longest list takes
    NoRoom,
}

impl From<Question> for Unprepared {
    ghost from_gives = { λ question unprepared. unprepared ≡ List question };

    fn from(question: Question) -> Unprepared {
        Unprepared::List(question)
    }
}

// Why a call isn't bound against lent cells.
#[derive(Clone, Copy, Debug, PartialEq, Eq)]
pub enum PreparedRefusal {
    // the cells are no prepared list
    NotPrepared,
    // 9 to 24
    Call(Refusal),
}

impl From<Refusal> for PreparedRefusal {
    ghost from_gives = { λ refusal refused. refused ≡ Call refusal };

    fn from(refusal: Refusal) -> PreparedRefusal {
        PreparedRefusal::Call(refusal)
    }
}

impl From<Question> for PreparedRefusal {
    ghost from_gives = { λ question refused. refused ≡ Call (Record question) };

    fn from(question: Question) -> PreparedRefusal {
        PreparedRefusal::Call(Refusal::Record(question))
    }
}

// The list of a parameter record, of any cells and bytes, laid out from cell 0 on: how many cells are written. Nothing is written unless all
// of it is.
pub fn prepare(spec: &Record, out: &mut [u64]) -> Result<usize, Unprepared>
    ensures { Preparing spec.now.cells.now spec.now.area.now out.old out.new result }
{
    let list = build(spec)?;
    if out.len() < PREPARED {
        return Err(Unprepared::NoRoom);
    }
    write_list(&list, cell(spec.cells, 0), out);
    Ok(FRONT + ROW * list.params.len)
}

// A call, of any cells and bytes, against cells that are handed over as a prepared list, with the area that its texts lie in. One whose
// arguments stand in the list's order is bound against the rows where they lie.
pub fn bind_prepared(
    prepared: &Record,
    record: &Record,
    board: &mut [u64],
) -> Result<Counts, PreparedRefusal>
    ensures { EndsBound (bound_prepared prepared.now.area.now prepared.now.cells.now record.now.cells.now record.now.area.now board.old) board.old board.new result }
{
    if !is_prepared(prepared) {
        return Err(PreparedRefusal::NotPrepared);
    }
    ask_form(record)?;
    let n = cell(prepared.cells, 0) as usize;
    let call = Call::new(record);
    if in_order(prepared, &call, n) {
        return Ok(collect_in_order(&call, n, board)?);
    }
    ask_entries(record)?;
    Ok(collect_loaded(prepared, &call, n, board)?)
}

// Any other call that has passed 9 to 12: the rows are loaded for 13 to 24.
fn collect_loaded(
    prepared: &Record,
    call: &Call,
    n: usize,
    board: &mut [u64],
) -> Result<Counts, Refusal>
    requires { OrderReady prepared.now.area.now prepared.now.cells.now call.now.cells.now call.now.area.now (head_of call.now.head) n × (ask_keys 64 call.now.cells.now call.now.area.now ≡ fine) }
    ensures { Ends (bound_to (list_in prepared.now.area.now prepared.now.cells.now) call.now.cells.now call.now.area.now board.old) board.old board.new result }
{
    let mut list = ParametersSpec {
        params: Parameters::new(),
        indices: indices_in(prepared.cells, n),
        area: prepared.area,
    };
    load(prepared.cells, &mut list.params);
    collect_open(&list, call, board)
}
