// Fixed cases for water in the last runs (02, §10), played on the compiled code and compared with what they have to end in. The crate's standard
// input has the cases, and its head says how it is laid out and where they come from. A line names each difference; the last line counts
// the cases.
#![tactic(auto)]

use replay::compare::{Place, same_numbers};
use replay::numbers::{counted, read_numbers, room_for_numbers, take};
use replay::tally::{Played, Tally, summary};
use window::{OutOfRange, window};

// Room for the runs of a case, more than a list may have.
const ROOM: usize = 4224;

// The minutes of a run are below this.
const MINUTES: u64 = 4294967296;

fn main() {
    let mut numbers = room_for_numbers();
    read_numbers(&mut numbers);
    replay_all(&numbers);
}

// The number of the cases, and the cases.
fn replay_all(numbers: &[u64]) {
    let mut at = 0;
    let cases = take(numbers, &mut at);
    let mut tally = Tally::new();
    for i in 0..cases {
        let same = play(numbers, &mut at, Place::new(1, i));
        tally = tally.add(Played::single(same));
    }
    summary(b"lists of runs: ", tally);
}

// One case: did it end as expected?
fn play(numbers: &[u64], at: &mut usize, place: Place) -> bool {
    let runs = counted(numbers, at);
    let w = take(numbers, at);
    let limit = take(numbers, at);
    let mut room = [0u32; ROOM];
    let n = put_runs(runs, &mut room);
    let told = told_by(window(front(&room, n), w, limit));
    same_numbers(numbers, at, place, b"number", 3, told)
}

// An answer as the input has it: 39, or 0 and whether there is a position, and the position.
fn told_by(answer: Result<Option<usize>, OutOfRange>) -> [u64; 5] {
    match answer {
        Ok(Some(position)) => [0, 1, position as u64, 0, 0],
        Ok(None) => [0, 0, 0, 0, 0],
        Err(OutOfRange) => [39, 0, 0, 0, 0],
    }
}

// The runs that some numbers stand for, put at the start of `out` as far as there is room: how many they are.
fn put_runs(numbers: &[u64], out: &mut [u32]) -> usize {
    let mut len = 0;
    for number in numbers {
        len = put_times(number / MINUTES, (number % MINUTES) as u32, len, out);
    }
    len
}

// A run of so many minutes, and as many times more from an index on: the index behind them.
fn put_times(more: u64, minutes: u32, from: usize, out: &mut [u32]) -> usize {
    let mut at = put_one(minutes, from, out);
    for _ in 0..more {
        at = put_one(minutes, at, out);
    }
    at
}

fn put_one(minutes: u32, at: usize, out: &mut [u32]) -> usize {
    let Some(place) = out.get_mut(at) else {
        return at;
    };
    *place = minutes;
    at + 1
}

fn front(runs: &[u32], n: usize) -> &[u32] {
    runs.get(..n).unwrap_or(runs)
}
