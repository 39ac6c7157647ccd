// Demand 3 in code: P and N are cut into the arguments of one call, the call is collected, and can-fill is asked of P and N written out whole.
#![tactic(auto)]

ghost use Rattle.std.specs.Prelude.{◌≡◌};
ghost use Rattle.cuts.specs.Record.{cut_of};
ghost use Rattle.cuts.specs.Play.{sizes_right, records_pass, Tried, Playing};

use answers::answer::{Counts, Refusal};
use builder::build;
use calls::ask_call;
use calls::head::{HEAD, PAIR, VALUE};
use can_fill::can_fill_with_args;
use cells::question::Question;
use cells::record::Record;
use collector::collect::{BOARD, collect};
use record::{CELLS, Cut, write_cut};

pub mod record;

// A cut that was played: how collection ends, and what can-fill foretells.
#[derive(Clone, Copy, Debug, PartialEq, Eq)]
pub struct Trial {
    pub collected: Result<Counts, Refusal>,
    pub foretold: Result<bool, Question>,
}

// One cut, of any cells and bytes that are lent: `positionals` holds P, two cells a value, and `named` N, four cells a pair. Where demand 3 does not
// speak nothing is played.
pub fn play(
    spec: &Record,
    positionals: &[u64],
    named: &[u64],
    area: &[u8],
    cut: Cut,
    board: &mut [u64],
) -> Option<Trial>
    ensures { Playing spec.now.cells.now spec.now.area.now positionals.now named.now area.now (cut_of cut) board.old board.new result }
{
    let values = positionals.len();
    let pairs = named.len();
    if !sizes_right(values, pairs, cut) {
        return None;
    }
    let whole = Cut {
        at_p: values / VALUE,
        at_n: pairs / PAIR,
        list_given: false,
        dictionary_given: false,
    };
    let mut whole_cells = [0; CELLS];
    write_cut(positionals, named, whole, &mut whole_cells);
    let mut cut_cells = [0; CELLS];
    write_cut(positionals, named, cut, &mut cut_cells);
    let len = HEAD + values + pairs;
    let record = Record {
        cells: &whole_cells[..len],
        area,
    };
    try_cut(spec, &record, &cut_cells[..len], board)
}

// Are there whole values and pairs, at most 64 of each, and is the cut within them?
fn sizes_right(values: usize, pairs: usize, cut: Cut) -> bool
    ensures { result ≡ sizes_right values pairs (cut_of cut) }
{
    values % VALUE == 0
        && pairs % PAIR == 0
        && values / VALUE <= 64
        && pairs / PAIR <= 64
        && cut.at_p <= values / VALUE
        && cut.at_n <= pairs / PAIR
}

// Both records as they were written, over one area: the whole one, and the cells of the cut's. Nothing is collected unless the list, the
// whole record and the board pass their questions.
fn try_cut(spec: &Record, whole: &Record, cells: &[u64], board: &mut [u64]) -> Option<Trial>
    ensures { Tried spec.now.cells.now spec.now.area.now whole.now.cells.now cells.now whole.now.area.now board.old board.new result }
{
    if !records_pass(spec, whole, board.len()) {
        return None;
    }
    let foretold = can_fill_with_args(spec, whole);
    let cut = Record {
        cells,
        area: whole.area,
    };
    let collected = collect(spec, &cut, board);
    Some(Trial {
        collected,
        foretold,
    })
}

// Questions 1 to 7 of the list, 9 to 13 of P and N written out whole, and 14 of a board with `room` cells.
fn records_pass(spec: &Record, whole: &Record, room: usize) -> bool
    ensures { result ≡ records_pass spec.now.cells.now spec.now.area.now whole.now.cells.now whole.now.area.now room }
{
    build(spec).is_ok() && ask_call(whole).is_ok() && BOARD <= room
}
