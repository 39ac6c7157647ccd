// One case: its records and areas, what can-fill says of the call, and what collection makes of the call or of each of its cuts.
use crate::case::{Case, Lent};
use crate::cut::same_cut;
use crate::ending::{ending_of, filling_of};
use answers::detail::name_of;
use can_fill::can_fill_with_args;
use cells::record::Record;
use collector::collect::collect;
use replay::compare::{Place, fresh_board, same_board, same_name, same_numbers};
use replay::numbers::{counted, front, piece, read_area, take};
use replay::tally::Played;

// One call collected: the number of its refusal or 0, and whether it ended as expected.
#[derive(Drop)]
struct One {
    number: u64,
    same: bool,
}

pub fn play(numbers: &[u64], at: &mut usize, place: Place) -> Played {
    let cells = counted(numbers, at);
    let spec = read_area(numbers, at);
    let call = read_area(numbers, at);
    let board = Lent {
        len: take(numbers, at) as usize,
        fill: take(numbers, at),
    };
    let case = Case {
        spec: Record {
            cells,
            area: piece(&spec.room, 0, spec.len),
        },
        area: piece(&call.room, 0, call.len),
        board,
    };
    play_case(numbers, at, place, &case)
}

// The call against the list: can-fill, and then the call or its cuts.
fn play_case(numbers: &[u64], at: &mut usize, place: Place, case: &Case) -> Played {
    let call = Record {
        cells: counted(numbers, at),
        area: case.area,
    };
    let filling = can_fill_with_args(&case.spec, &call);
    let fills = same_numbers(numbers, at, place, b"can-fill", 2, filling_of(filling));
    let cuts = take(numbers, at);
    if cuts == 0 {
        let one = play_call(numbers, at, place, case, &call);
        return Played::single(fills & one.same);
    }
    let all = play_cuts(numbers, at, place, case, cuts);
    Played {
        same: fills & all.same,
        cuts,
        repeat: all.repeat,
    }
}

// Every cut of a call, each collected from its own record and then once more from P and N, as that record has them.
fn play_cuts(numbers: &[u64], at: &mut usize, place: Place, case: &Case, cuts: u64) -> Played {
    let mut sixteen = false;
    let mut nineteen = false;
    let mut same = true;
    for k in 0..cuts {
        let call = Record {
            cells: counted(numbers, at),
            area: case.area,
        };
        let one = play_both(numbers, at, place.at_part(k), case, &call);
        sixteen |= one.number == 16;
        nineteen |= one.number == 19;
        same &= one.same;
    }
    Played {
        same,
        cuts,
        repeat: sixteen & nineteen,
    }
}

// One cut, from its own record and from P and N: the same is expected of both.
fn play_both(numbers: &[u64], at: &mut usize, place: Place, case: &Case, call: &Record) -> One {
    let mut expected = *at;
    let one = play_call(numbers, at, place, case, call);
    let again = same_cut(numbers, &mut expected, place, case, call);
    One {
        number: one.number,
        same: one.same & again,
    }
}

// One call collected on a fresh board, against what is expected of it.
fn play_call(numbers: &[u64], at: &mut usize, place: Place, case: &Case, call: &Record) -> One {
    let mut board = fresh_board(case.board.fill);
    let answer = collect(&case.spec, call, front(&mut board, case.board.len));
    let ending = ending_of(answer);
    let told = same_numbers(numbers, at, place, b"number", 5, ending);
    let named = same_name(
        numbers,
        at,
        place,
        name_of(case.spec.area, call.area, answer),
    );
    let kept = same_board(numbers, at, place, case.board.fill, &board);
    One {
        number: ending[0],
        same: told & named & kept,
    }
}
