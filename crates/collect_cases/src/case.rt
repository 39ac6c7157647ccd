// What a case lends to each of its calls.
use cells::record::Record;

// The parameter record, the area of the call and of its cuts, and the board.
#[derive(Clone, Copy)]
pub struct Case<'a> {
    pub spec: Record<'a>,
    pub area: &'a [u8],
    pub board: Lent,
}

// The board that a case lends: its length, and what cell 0 holds.
#[derive(Clone, Copy)]
pub struct Lent {
    pub len: usize,
    pub fill: u64,
}
