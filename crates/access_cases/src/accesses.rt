// One call record, asked by six accessors.
use accessors::answer::{FunctionError, name_of};
use accessors::len::len;
use accessors::names_map::names_map;
use accessors::no_named_args::no_named_args;
use accessors::optional::{optional, positional};
use accessors::positions::positions;
use cells::record::Record;
use replay::compare::{Place, fresh_board, same_board, same_name, same_numbers};
use replay::numbers::{counted, front, piece, read_area, take};

// What an accessor is given besides the record: the output's length, what its cell 0 holds, and the numbers of positionals.
#[derive(Clone, Copy)]
struct Given {
    len: usize,
    fill: u64,
    required: usize,
    more: usize,
    positional: usize,
}

pub fn play_call(numbers: &[u64], at: &mut usize, place: Place) -> bool {
    let cells = counted(numbers, at);
    let call = read_area(numbers, at);
    let given = read_given(numbers, at);
    let record = Record {
        cells,
        area: piece(&call.room, 0, call.len),
    };
    play_accessors(numbers, at, place, &record, given)
}

fn read_given(numbers: &[u64], at: &mut usize) -> Given {
    Given {
        len: take(numbers, at) as usize,
        fill: take(numbers, at),
        required: take(numbers, at) as usize,
        more: take(numbers, at) as usize,
        positional: take(numbers, at) as usize,
    }
}

// Each accessor in the input's order: did all answer as expected?
fn play_accessors(
    numbers: &[u64],
    at: &mut usize,
    place: Place,
    record: &Record,
    given: Given,
) -> bool {
    let mut same = true;
    for which in 0..6 {
        let here = place.at_part(which);
        same &= play_one(numbers, at, here, which, record, given);
    }
    same
}

// One accessor on a fresh output, against what is expected of it.
fn play_one(
    numbers: &[u64],
    at: &mut usize,
    place: Place,
    which: u64,
    record: &Record,
    given: Given,
) -> bool {
    let mut out = fresh_board(given.fill);
    let answer = access(which, record, given, front(&mut out, given.len));
    let told = same_numbers(numbers, at, place, b"number", 4, told_by(answer));
    let named = same_name(numbers, at, place, name_of(record.area, answer));
    let kept = same_board(numbers, at, place, given.fill, &out);
    told & named & kept
}

fn access(
    which: u64,
    record: &Record,
    given: Given,
    out: &mut [u64],
) -> Result<usize, FunctionError> {
    match which {
        0 => names_map(record, out),
        1 => positions(record, out),
        2 => len(record),
        3 => no_named_args(record),
        4 => optional(record, given.required, given.more, out),
        _ => positional(record, given.positional, out),
    }
}

// An answer as the input has it: 0 and the number, or the refusal's number, and its detail.
fn told_by(answer: Result<usize, FunctionError>) -> [u64; 5] {
    match answer {
        Ok(n) => [0, n as u64, 0, 0, 0],
        Err(FunctionError::Record(question)) => [question.number(), 0, 0, 0, 0],
        Err(FunctionError::ArgsArrayIsNotIterable) => [15, 0, 0, 0, 0],
        Err(FunctionError::KwArgsIsNotDict) => [17, 0, 0, 0, 0],
        Err(FunctionError::ArgsValueIsNotString) => [18, 0, 0, 0, 0],
        Err(FunctionError::RepeatedArg(name)) => [19, name, 0, 0, 0],
        Err(FunctionError::ExtraNamedArg(count, name)) => [24, count as u64, name, 0, 0],
        Err(FunctionError::WrongNumberOfArgs(least, most, got)) => {
            [26, least as u64, most as u64, got as u64, 0]
        }
    }
}
