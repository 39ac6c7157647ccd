// Writing into lent cells (01, board) and lent bytes (printed list, sheets): what stands behind what is written is kept.
ghost use Rattle.std.specs.Prelude.{◌≡◌, ◌+◌, ◌≤◌, length};
ghost use Rattle.rules.specs.Value.{value_cells};
ghost use Rattle.cells.specs.Value.{pair_of};
ghost use Rattle.cells.specs.Out.{stored, Put, Begins, Wrote};

use crate::value::Pair;

// Stores a pair's two cells from `at` on if both are inside, and nothing otherwise.
pub fn put(out: &mut [u64], at: usize, pair: Pair)
    ensures { out.new ≡ stored out.old at (value_cells (pair_of pair)) }
{
    if out.len() < 2 {
        return;
    }
    if out.len() - 2 < at {
        return;
    }
    put_inside(out, at, pair);
}

// The same where both are known to be inside.
pub fn put_inside(out: &mut [u64], at: usize, pair: Pair)
    requires { at + 2 ≤ length out.old }
    ensures { out.new ≡ stored out.old at (value_cells (pair_of pair)) }
{
    out[at] = pair.kind;
    out[at + 1] = pair.payload;
}

// Stores some bytes from `at` on, and answers where they end.
pub fn write_bytes(text: &[u8], at: usize, out: &mut [u8]) -> usize
    requires { at + length text.now ≤ length out.old }
    ensures { Put text.now at out.old out.new result }
{
    // Not by `copy_from_slice`: that takes C's `memmove`, a name more that the archive for C would need from outside.
    for k in 0..text.len() {
        out[at + k] = text[k];
    }
    at + text.len()
}

// Lent bytes, and where the next ones are written.
#[derive(Drop)]
pub struct Cursor<'a> {
    pub out: &'a mut [u8],
    pub at: usize,
}

impl<'a> Cursor<'a> {
    // The first byte of what is lent.
    pub fn new(out: &'a mut [u8]) -> Cursor<'a>
        ensures { Begins out.entry result }
    {
        Cursor { out, at: 0 }
    }

    // Stores some bytes behind those that are written.
    pub fn write(&mut self, text: &[u8])
        requires { self.old.at + length text.now ≤ length self.old.out.now }
        ensures { Wrote text.now self.old self.new }
    {
        self.at = write_bytes(text, self.at, self.out);
    }
}
