// A walk of the slot reader over some cells.
use reader::{ReadError, Reading, read_is_eof, read_next, read_next_opt};
use replay::compare::{Place, same_numbers};
use replay::numbers::{counted, take};

// Each read from the position where the one before it left the reader: did all answer as expected?
pub fn play_walk(numbers: &[u64], at: &mut usize, place: Place) -> bool {
    let slots = counted(numbers, at);
    let reads = take(numbers, at);
    let mut fine = true;
    let mut position = 0;
    for k in 0..reads {
        let told = told_at(take(numbers, at), slots, position);
        fine &= same_numbers(numbers, at, place.at_part(k), b"number", 4, told);
        position = told[3] as usize;
    }
    fine
}

// 0 is_eof, 1 next, 2 next_opt: the answer and the position after it, as the input has them.
fn told_at(which: u64, slots: &[u64], position: usize) -> [u64; 5] {
    match which {
        0 => [
            2,
            read_is_eof(slots, position) as u64,
            0,
            position as u64,
            0,
        ],
        1 => told_by(read_next(slots, position)),
        _ => told_by(read_next_opt(slots, position)),
    }
}

pub fn told_by(reading: Reading) -> [u64; 5] {
    let at = reading.at as u64;
    match reading.next {
        Ok(Some(pair)) => [1, pair.kind, pair.payload, at, 0],
        Ok(None) => [0, 0, 0, at, 0],
        Err(ReadError::NoMore) => [27, 0, 0, at, 0],
        Err(ReadError::Unfilled) => [28, 0, 0, at, 0],
    }
}
