// Fixed cases for the accessors, the printed list and the slot reader, played on the compiled code and compared with what they have to end
// in: answer, detail, the name's bytes, and every cell or byte of the output. The crate's standard input has the cases, and its head says how
// it is laid out and where they come from. A line names each difference; the last lines count the cases.
#![tactic(auto)]

mod accesses;
mod boards;
mod lists;
mod walks;

use accesses::play_call;
use boards::play_board;
use lists::play_list;
use replay::compare::Place;
use replay::numbers::{read_numbers, room_for_numbers, take};
use replay::tally::{Played, Tally, summary};
use walks::play_walk;

// The sections of the input.
const CALLS: u64 = 1;

const LISTS: u64 = 2;

const WALKS: u64 = 3;

const BOARDS: u64 = 4;

fn main() {
    let mut numbers = room_for_numbers();
    read_numbers(&mut numbers);
    replay_all(&numbers);
}

// The four sections of the input, in its order.
fn replay_all(numbers: &[u64]) {
    let mut at = 0;
    let calls = section(numbers, &mut at, CALLS);
    let lists = section(numbers, &mut at, LISTS);
    let walks = section(numbers, &mut at, WALKS);
    let boards = section(numbers, &mut at, BOARDS);
    summary(b"calls, by six accessors each: ", calls);
    summary(b"lists: ", lists);
    summary(b"walks: ", walks);
    summary(b"boards that collection wrote, walked: ", boards);
}

// One section: the number of its cases, and the cases.
fn section(numbers: &[u64], at: &mut usize, index: u64) -> Tally {
    let cases = take(numbers, at);
    let mut tally = Tally::new();
    for i in 0..cases {
        let same = play(numbers, at, index, Place::new(index, i));
        tally = tally.add(Played::single(same));
    }
    tally
}

// One case of any section: did it end as expected?
fn play(numbers: &[u64], at: &mut usize, index: u64, place: Place) -> bool {
    match index {
        1 => play_call(numbers, at, place),
        2 => play_list(numbers, at, place),
        3 => play_walk(numbers, at, place),
        _ => play_board(numbers, at, place),
    }
}
