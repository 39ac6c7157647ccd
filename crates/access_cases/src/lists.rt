// One parameter list, printed.
use cells::question::Question;
use cells::record::Record;
use printer::parameters_str;
use replay::compare::{Place, same_numbers, same_output};
use replay::numbers::{counted, front_bytes, piece, read_area, take};

// Room for an output with bytes to spare, and what each of them holds before.
const OUT: usize = 9216;

const FILL: u8 = 165;

pub fn play_list(numbers: &[u64], at: &mut usize, place: Place) -> bool {
    let cells = counted(numbers, at);
    let spec = read_area(numbers, at);
    let record = Record {
        cells,
        area: piece(&spec.room, 0, spec.len),
    };
    let len = take(numbers, at) as usize;
    let mut out = [FILL; OUT];
    let printed = parameters_str(&record, front_bytes(&mut out, len));
    let told = same_numbers(numbers, at, place, b"list", 2, told_by(printed));
    told & same_output(numbers, at, place, FILL, &out)
}

// What is printed as the input has it: 0 and the length, or the refusal's number and 0.
fn told_by(printed: Result<usize, Question>) -> [u64; 5] {
    match printed {
        Ok(n) => [0, n as u64, 0, 0, 0],
        Err(question) => [question.number(), 0, 0, 0, 0],
    }
}
