// One cut of a family, played by `cuts::play`: it is given P and N as the cut's record has them, and writes that record itself, so it must
// end as the record does; and can-fill of P and N written out whole must foretell it.
ghost use Rattle.std.specs.Prelude.{◌≤◌};

use crate::case::Case;
use crate::ending::{ending_of, filling_of};
use answers::detail::name_of;
use calls::head::{HEAD, PAIR, VALUE};
use cells::record::{Record, cell};
use cuts::record::Cut;
use cuts::{Trial, play};
use replay::compare::{Place, fresh_board, join, same, same_board, same_name, same_numbers};
use replay::numbers::from_to;

// `call` is the cut's record; what is expected of it stands in `numbers` from `at` on.
pub fn same_cut(numbers: &[u64], at: &mut usize, place: Place, case: &Case, call: &Record) -> bool {
    let cells = call.cells;
    let p = VALUE * limited(cell(cells, 0));
    let n = PAIR * limited(cell(cells, 1));
    let s = VALUE * limited(cell(cells, 3));
    let d = PAIR * limited(cell(cells, 5));
    let values = join(cells, HEAD, p, HEAD + p + n, s);
    let pairs = join(cells, HEAD + p, n, HEAD + p + n + s, d);
    let mut board = fresh_board(case.board.fill);
    let played = play(
        &case.spec,
        from_to(&values, 0, p + s),
        from_to(&pairs, 0, n + d),
        call.area,
        cut_of(cells),
        &mut board,
    );
    let Some(trial) = played else {
        return same(place, b"played, which is outside", 1, 0);
    };
    let told = same_told(numbers, at, place, trial);
    let named = same_name(
        numbers,
        at,
        place,
        name_of(case.spec.area, call.area, trial.collected),
    );
    let kept = same_board(numbers, at, place, case.board.fill, &board);
    told & named & kept
}

// The cut that a cut's record shows: how much is written out, and which stars are there.
fn cut_of(cells: &[u64]) -> Cut {
    Cut {
        at_p: cell(cells, 0) as usize,
        at_n: cell(cells, 1) as usize,
        list_given: cell(cells, 2) == 1,
        dictionary_given: cell(cells, 4) == 1,
    }
}

// A count of the input, or none where it is above the limit of a call.
fn limited(count: u64) -> usize
    ensures { result ≤ 64 }
{
    if count <= 64 { count as usize } else { 0 }
}

// The answer, and that can-fill says yes exactly to what is accepted.
fn same_told(numbers: &[u64], at: &mut usize, place: Place, trial: Trial) -> bool {
    let ending = ending_of(trial.collected);
    let told = same_numbers(numbers, at, place, b"number", 5, ending);
    let whole = [0, trial.collected.is_ok() as u64];
    let mut i = 0;
    told & same_numbers(
        &whole,
        &mut i,
        place,
        b"can-fill of the whole",
        2,
        filling_of(trial.foretold),
    )
}
