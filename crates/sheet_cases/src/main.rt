// Fixed sheets, bound by the compiled code and compared byte by byte with what they have to print; the bytes behind that must be as they were.
// The crate's standard input has the cases, and its head says how it is laid out and where they come from. A line names each difference; the
// last line counts the cases.
#![tactic(auto)]

use replay::compare::{Place, same, same_bytes};
use replay::numbers::piece;
use replay::sheets::{first_case, next_case, room_for_text};
use replay::tally::{Played, Tally, summary};
use sheets::{NoRoom, bind};

// Room for an output with bytes to spare, and what each of them holds before.
const OUT: usize = 40970;

const FILL: u8 = 165;

fn main() {
    let mut text = room_for_text();
    let n = io::read_full(0, &mut text);
    replay_all(&text[..n]);
}

// The cases, one after the other. No input has more cases than bytes: a loop must be seen to end.
fn replay_all(text: &[u8]) {
    let mut tally = Tally::new();
    let mut next = first_case(text);
    for _ in 0..text.len() {
        let Some(case) = next else {
            break;
        };
        let input = piece(text, case.input, case.output);
        let expected = piece(text, case.output, case.next);
        let same = play(Place::new(1, tally.played), input, expected);
        tally = tally.add(Played::single(same));
        next = next_case(text, case);
    }
    summary(b"sheets: ", tally);
}

// One sheet on a fresh output: does it print what is expected, and is the rest kept?
fn play(place: Place, input: &[u8], expected: &[u8]) -> bool {
    let mut out = [FILL; OUT];
    match bind(input, &mut out) {
        Err(NoRoom) => same(place, b"room", 1, 0),
        Ok(len) => {
            let length = same(place, b"length", expected.len() as u64, len as u64);
            length && same_bytes(place, b"byte", expected, FILL, &out)
        }
    }
}
