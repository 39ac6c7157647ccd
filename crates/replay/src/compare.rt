// What was expected against what was got, and a line for each difference.
ghost use Rattle.std.specs.Prelude.{◌≡◌, length};

use crate::numbers::{behind, counted, from_to, number, piece, read_area, take};

// Room for a board with cells to spare, and for the values or the pairs of one call.
const BOARD: usize = 1024;

const JOINED: usize = 512;

// A case: the section of the input, its number there, and which of its parts, a cut, a read, a slot or an accessor, each from 1; part 0 is the
// case itself.
#[derive(Clone, Copy, Debug, PartialEq, Eq)]
pub struct Place {
    section: u64,
    case: u64,
    part: u64,
}

impl Place {
    // The case of a section that as many stand before.
    pub fn new(section: u64, before: u64) -> Self {
        Place {
            section,
            case: before.wrapping_add(1),
            part: 0,
        }
    }

    // The part of the case that as many stand before.
    pub fn at_part(self, before: u64) -> Self {
        Place {
            section: self.section,
            case: self.case,
            part: before.wrapping_add(1),
        }
    }

    fn say(self) {
        io::write_all(1, b"section ");
        io::print_decimal(1, self.section);
        io::write_all(1, b", case ");
        io::print_decimal(1, self.case);
        if 0 < self.part {
            io::write_all(1, b", part ");
            io::print_decimal(1, self.part);
        }
        io::write_all(1, b": ");
    }
}

fn say_numbers(expected: u64, got: u64) {
    io::write_all(1, b": expected ");
    io::print_decimal(1, expected);
    io::write_all(1, b", got ");
    io::print_decimal(1, got);
    io::write_all(1, b"\n");
}

// Are two numbers the same? If not, a line says what differs.
pub fn same(place: Place, what: &[u8], expected: u64, got: u64) -> bool {
    if expected == got {
        return true;
    }
    place.say();
    io::write_all(1, what);
    say_numbers(expected, got);
    false
}

// The like for the element at an index.
fn same_at(place: Place, what: &[u8], i: usize, expected: u64, got: u64) -> bool {
    if expected == got {
        return true;
    }
    place.say();
    io::write_all(1, what);
    io::write_all(1, b" ");
    io::print_decimal(1, i as u64);
    say_numbers(expected, got);
    false
}

// The first `n` numbers of an answer against those that the input has next. A line names each that differs.
pub fn same_numbers(
    numbers: &[u64],
    at: &mut usize,
    place: Place,
    what: &[u8],
    n: usize,
    got: [u64; 5],
) -> bool {
    let mut fine = true;
    for i in 0..n {
        fine &= same_at(place, what, i, take(numbers, at), number(&got, i));
    }
    fine
}

// A name against the one that the input has next: how many bytes, then the first that differs.
pub fn same_name(numbers: &[u64], at: &mut usize, place: Place, got: &[u8]) -> bool {
    let name = read_area(numbers, at);
    let n = name.len;
    let length = same(place, b"length of the name", n as u64, got.len() as u64);
    length && same_bytes(place, b"byte of the name", piece(&name.room, 0, n), 0, got)
}

// An output against the bytes that the input has next; those behind them must be as they were.
pub fn same_output(numbers: &[u64], at: &mut usize, place: Place, fill: u8, out: &[u8]) -> bool {
    let written = read_area(numbers, at);
    same_bytes(
        place,
        b"output byte",
        piece(&written.room, 0, written.len),
        fill,
        out,
    )
}

// Bytes after a call: those written, and after them what each held before. A line names the first that differs.
pub fn same_bytes(place: Place, what: &[u8], written: &[u8], fill: u8, out: &[u8]) -> bool {
    for (i, byte) in out.iter().enumerate() {
        let expected = written.get(i).copied().unwrap_or(fill);
        if !same_at(place, what, i, u64::from(expected), u64::from(*byte)) {
            return false;
        }
    }
    true
}

// A board before a call: `fill + i` in cell i. The `ensures` gives the length, which lending the array as a slice needs.
pub fn fresh_board(fill: u64) -> [u64; BOARD]
    ensures { 1024 ≡ length result }
{
    let mut board = [0; BOARD];
    lay(&[], fill, &mut board);
    board
}

// `n` numbers from `a` on, and behind them `m` from `b` on.
pub fn join(numbers: &[u64], a: usize, n: usize, b: usize, m: usize) -> [u64; JOINED]
    ensures { 512 ≡ length result }
{
    let mut joined = [0; JOINED];
    lay(from_to(numbers, a, n), 0, &mut joined);
    lay(from_to(numbers, b, m), 0, behind(&mut joined, n));
    joined
}

// Some cells at the start of a board, and `fill + i` in each cell i behind them.
fn lay(cells: &[u64], fill: u64, board: &mut [u64]) {
    for (i, cell) in board.iter_mut().enumerate() {
        *cell = expected_cell(cells, fill, i);
    }
}

// A board after a call against the written cells that the input has next, and after them what the board held. A line names the first cell
// that differs.
pub fn same_board(numbers: &[u64], at: &mut usize, place: Place, fill: u64, board: &[u64]) -> bool {
    let written = counted(numbers, at);
    for (i, cell) in board.iter().enumerate() {
        if !same_at(
            place,
            b"board cell",
            i,
            expected_cell(written, fill, i),
            *cell,
        ) {
            return false;
        }
    }
    true
}

fn expected_cell(written: &[u64], fill: u64, i: usize) -> u64 {
    written
        .get(i)
        .copied()
        .unwrap_or(fill.wrapping_add(i as u64))
}
