// The head of a call record (01, cells, texts and records): six cells of counts and kinds, and where each part behind them
// begins. How many cells a value and a pair take is known here alone.
ghost use Rattle.std.specs.Prelude.{◌≡◌, ◌≤◌, length};
ghost use Rattle.rules.specs.CallRecord.{read_head};
ghost use Rattle.cells.specs.Out.{stored};
ghost use Rattle.calls.specs.Head.{head_of, no_head, head_cells, at_most, Few, named_from, items_from, entries_from};

use cells::record::{Record, cell};

pub const HEAD: usize = 6;

pub const VALUE: usize = 2;

pub const PAIR: usize = 4;

#[derive(Clone, Copy, Debug, PartialEq, Eq)]
pub struct Head {
    pub p: usize,
    pub n: usize,
    pub star_kind: u64,
    pub s: usize,
    pub double_kind: u64,
    pub d: usize,
}

// A call record with the area that its texts lie in, and its head.
#[derive(Clone, Copy, Debug)]
pub struct Call<'a> {
    pub cells: &'a [u64],
    pub area: &'a [u8],
    pub head: Head,
}

impl<'a> Call<'a> {
    pub fn new(record: &Record<'a>) -> Call<'a>
        ensures cells { result.cells ≡ record.now.cells }
        ensures area { result.area ≡ record.now.area }
        ensures head { head_of result.head ≡ read_head record.now.cells.now }
    {
        Call {
            cells: record.cells,
            area: record.area,
            head: read_head(record.cells),
        }
    }
}

impl Head {
    // The head of a call that is given nothing.
    pub fn none() -> Head
        ensures { head_of result ≡ no_head }
    {
        Head {
            p: 0,
            n: 0,
            star_kind: 0,
            s: 0,
            double_kind: 0,
            d: 0,
        }
    }

    // The six cells that `read_head` reads.
    #[tactic(auto, unfolding(cells::specs::Out::stored))]
    pub fn write(self, cells: &mut [u64])
        requires { 6 ≤ length cells.old }
        ensures { cells.new ≡ stored cells.old 0 (head_cells (head_of self)) }
    {
        cells[..HEAD].copy_from_slice(&[
            self.p as u64,
            self.n as u64,
            self.star_kind,
            self.s as u64,
            self.double_kind,
            self.d as u64,
        ]);
    }
}

pub fn read_head(cells: &[u64]) -> Head
    ensures { head_of result ≡ read_head cells.now }
{
    Head {
        p: cell(cells, 0) as usize,
        n: cell(cells, 1) as usize,
        star_kind: cell(cells, 2),
        s: cell(cells, 3) as usize,
        double_kind: cell(cells, 4),
        d: cell(cells, 5) as usize,
    }
}

// Is no count above 64? Only then may places be computed: a count is any cell, and sums of large ones would wrap.
pub fn few(h: Head) -> bool
    ensures { result ≡ at_most 64 (head_of h) }
{
    h.p <= 64 && h.n <= 64 && h.s <= 64 && h.d <= 64
}

// Where the written pairs begin: behind the head and the written values.
pub fn named_from(h: Head) -> usize
    requires { Few 64 (head_of h) }
    ensures { result ≡ named_from (head_of h) }
{
    HEAD + VALUE * h.p
}

// Where the items of the star begin: behind the written pairs.
pub fn items_from(h: Head) -> usize
    requires { Few 64 (head_of h) }
    ensures { result ≡ items_from (head_of h) }
{
    HEAD + VALUE * h.p + PAIR * h.n
}

// Where the entries of the double star begin: behind the items.
pub fn entries_from(h: Head) -> usize
    requires { Few 64 (head_of h) }
    ensures { result ≡ entries_from (head_of h) }
{
    HEAD + VALUE * h.p + PAIR * h.n + VALUE * h.s
}
