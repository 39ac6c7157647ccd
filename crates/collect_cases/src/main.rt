// Fixed cases for collection and can-fill, played on the compiled code and compared with what they have to end in: answer, detail, the
// name's bytes, and every cell of the board. The crate's standard input has the cases, and its head says how it is laid out and where
// they come from. A line names each difference; the last lines count the cases.
#![tactic(auto)]

mod case;
mod cut;
mod ending;
mod play;

use play::play;
use replay::compare::Place;
use replay::numbers::{read_numbers, room_for_numbers, take};
use replay::tally::{Tally, line, summary};

fn main() {
    let mut numbers = room_for_numbers();
    read_numbers(&mut numbers);
    replay(&numbers);
}

// The five sections of the input, in its order.
fn replay(numbers: &[u64]) {
    let mut at = 0;
    let examples = section(numbers, &mut at, 1);
    let limits = section(numbers, &mut at, 2);
    let records = section(numbers, &mut at, 3);
    let families = section(numbers, &mut at, 4);
    let oracle = section(numbers, &mut at, 5);
    summary(b"examples: ", examples);
    summary(b"limits: ", limits);
    summary(b"records: ", records);
    summary(b"families: ", families);
    summary(b"answers of the published Rust: ", oracle);
    line(b"cuts in families: ", families.cuts);
    line(
        b"families refused by 16 at some cuts and by 19 at others: ",
        families.repeats,
    );
}

// One section: the number of its cases, and the cases.
fn section(numbers: &[u64], at: &mut usize, index: u64) -> Tally {
    let cases = take(numbers, at);
    let mut tally = Tally::new();
    for i in 0..cases {
        tally = tally.add(play(numbers, at, Place::new(index, i)));
    }
    tally
}
