// The input as numbers: decimals with anything between them, and a comment from # to the end of its line. Reading past the end gives 0 or
// nothing, so a short input shows as differences.
ghost use Rattle.std.specs.Prelude.{◌≡◌, length};

// Room for the numbers of an input.
const NUMBERS: usize = 262144;

// Room for an area whose last text starts as far on as a text can start.
const AREA: usize = 65792;

// The bytes of an area at the start of their room, and how many they are.
#[derive(Clone, Copy)]
pub struct Area {
    pub room: [u8; AREA],
    pub len: usize,
}

// The `ensures` gives the length, which lending the array as a slice needs.
pub fn room_for_numbers() -> [u64; NUMBERS]
    ensures { 262144 ≡ length result }
{
    [0; NUMBERS]
}

// Where the reading of the text stands: between numbers, in a comment, or in a number, with its value so far.
#[derive(Clone, Copy, Debug, PartialEq, Eq)]
enum State {
    Between,
    Comment,
    Number(u64),
}

// The same, and how many numbers were read before it.
#[derive(Clone, Copy, Debug, PartialEq, Eq)]
struct Scan {
    state: State,
    count: usize,
}

impl State {
    fn next(self, byte: u8) -> Self {
        match self {
            State::Comment if byte != b'\n' => State::Comment,
            State::Comment => State::Between,
            State::Number(value) if byte.is_ascii_digit() => State::Number(with_digit(value, byte)),
            _ if byte.is_ascii_digit() => State::Number(with_digit(0, byte)),
            _ if byte == b'#' => State::Comment,
            _ => State::Between,
        }
    }
}

impl Scan {
    fn next(self, byte: u8, out: &mut [u64]) -> Self {
        let count = match self.state {
            State::Number(value) if !byte.is_ascii_digit() => put(self.count, value, out),
            _ => self.count,
        };
        Scan {
            state: self.state.next(byte),
            count,
        }
    }
}

// Puts the numbers of the standard input at the start of `out`, as many as fit. Each ends with a byte that is no digit. The turns read 2 MB,
// which is more than the input has: a loop must be seen to end, and nothing says that an input does.
pub fn read_numbers(out: &mut [u64]) {
    let mut scan = Scan {
        state: State::Between,
        count: 0,
    };
    for _ in 0..32 {
        scan = read_some(scan, out);
    }
}

fn read_some(scan: Scan, out: &mut [u64]) -> Scan {
    let mut text = io::large_buffer();
    let n = io::read_full(0, &mut text);
    scan_text(&text[..n], scan, out)
}

fn scan_text(text: &[u8], start: Scan, out: &mut [u64]) -> Scan {
    let mut scan = start;
    for byte in text {
        scan = scan.next(*byte, out);
    }
    scan
}

// One digit more. No number of the input goes beyond 64 bits, so what becomes of one that does is left open.
pub fn with_digit(value: u64, digit: u8) -> u64 {
    if u64::MAX / 10 < value {
        return 0;
    }
    value
        .wrapping_mul(10)
        .wrapping_add(u64::from(digit.saturating_sub(b'0')))
}

// Keeps a number where there is room: the count after it.
fn put(count: usize, value: u64, out: &mut [u64]) -> usize {
    let Some(place) = out.get_mut(count) else {
        return count;
    };
    *place = value;
    count + 1
}

// The next number.
pub fn take(numbers: &[u64], at: &mut usize) -> u64 {
    let i = *at;
    *at = i.wrapping_add(1);
    number(numbers, i)
}

pub fn number(numbers: &[u64], i: usize) -> u64 {
    numbers.get(i).copied().unwrap_or(0)
}

// A count, and as many numbers after it.
pub fn counted<'a>(numbers: &'a [u64], at: &mut usize) -> &'a [u64] {
    let n = take(numbers, at) as usize;
    let from = *at;
    *at = from.wrapping_add(n);
    from_to(numbers, from, n)
}

pub fn from_to<'a>(numbers: &'a [u64], from: usize, n: usize) -> &'a [u64] {
    let Some(end) = from.checked_add(n) else {
        return &[];
    };
    numbers.get(from..end).unwrap_or(&[])
}

pub fn read_area(numbers: &[u64], at: &mut usize) -> Area {
    let mut room = [0u8; AREA];
    let len = put_area(numbers, at, &mut room);
    Area { room, len }
}

// An area's bytes, put at the start of `out`: their number, or more than there is room for.
fn put_area(numbers: &[u64], at: &mut usize, out: &mut [u8]) -> usize {
    let runs = take(numbers, at);
    if (out.len() as u64) < runs {
        return out.len().wrapping_add(1);
    }
    let mut len = 0;
    for _ in 0..runs {
        len = put_run(take(numbers, at), len, out);
    }
    len
}

// A byte, or a run of one byte as times × 256 + byte: the length after it.
fn put_run(run: u64, from: usize, out: &mut [u8]) -> usize {
    put_times((run / 256).max(1), (run % 256) as u8, from, out)
}

// A byte as many times from an index on: the index behind them, or one behind the room where they do not fit.
fn put_times(times: u64, byte: u8, from: usize, out: &mut [u8]) -> usize {
    let most = out.len();
    if most < from || ((most - from) as u64) < times {
        return most.wrapping_add(1);
    }
    let end = from + times as usize;
    out[from..end].fill(byte);
    end
}

// The bytes from an index up to another; none where they do not stand so.
pub fn piece<'a>(bytes: &'a [u8], from: usize, to: usize) -> &'a [u8] {
    bytes.get(from..to).unwrap_or(&[])
}

// The first cells of a board; all where it has fewer.
pub fn front(board: &mut [u64], len: usize) -> &mut [u64] {
    let end = len.min(board.len());
    &mut board[..end]
}

// The like for the bytes of an output.
pub fn front_bytes(out: &mut [u8], len: usize) -> &mut [u8] {
    let end = len.min(out.len());
    &mut out[..end]
}

// The cells of a board from an index on; none where it has fewer.
pub fn behind(board: &mut [u64], from: usize) -> &mut [u64] {
    let start = from.min(board.len());
    &mut board[start..]
}
