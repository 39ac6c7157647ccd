// A walk of the slot reader over the slots that collection wrote on a board.
use crate::walks::told_by;
use cells::record::Record;
use collector::collect::collect;
use reader::{read_is_eof, read_next_opt};
use replay::compare::{Place, fresh_board, same, same_numbers};
use replay::numbers::{counted, from_to, piece, read_area, take};
use std::num::wrapping_add_u64;

pub fn play_board(numbers: &[u64], at: &mut usize, place: Place) -> bool {
    let spec_cells = counted(numbers, at);
    let spec_area = read_area(numbers, at);
    let spec = Record {
        cells: spec_cells,
        area: piece(&spec_area.room, 0, spec_area.len),
    };
    let call_cells = counted(numbers, at);
    let call_area = read_area(numbers, at);
    let call = Record {
        cells: call_cells,
        area: piece(&call_area.room, 0, call_area.len),
    };
    let mut board = fresh_board(take(numbers, at));
    let answer = collect(&spec, &call, &mut board);
    let expected = counted(numbers, at);
    if answer.is_err() {
        return same(place, b"accepted", 1, 0);
    }
    walk_slots(place, expected, from_to(&board, 0, expected.len()))
}

// Every slot once, in order, and then the end.
fn walk_slots(place: Place, expected: &[u64], slots: &[u64]) -> bool {
    let mut fine = true;
    for (position, slot) in expected.chunks_exact(2).enumerate() {
        fine &= same_slot(place, position, slot[0], slot[1], slots);
    }
    let end = read_is_eof(slots, expected.len() / 2);
    fine & same(place, b"end of the slots", 1, end as u64)
}

// One slot, and where the read left the reader.
fn same_slot(place: Place, position: usize, kind: u64, payload: u64, slots: &[u64]) -> bool {
    let before = position as u64;
    let filled = (kind != 0) as u64;
    let expected = [filled, kind, payload, wrapping_add_u64(before, 1)];
    let mut at = 0;
    let told = told_by(read_next_opt(slots, position));
    same_numbers(
        &expected,
        &mut at,
        place.at_part(before),
        b"number",
        4,
        told,
    )
}
