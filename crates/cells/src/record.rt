// Reading out of a record's cells (01, cells, texts and records). Nothing is indexed before it is known to be inside: a cell
// past the end reads as 0, which is no kind.
ghost use Rattle.std.specs.Prelude.{◌≡◌, get_or};
ghost use Rattle.cells.specs.Value.{pair_of};
ghost use Rattle.cells.specs.Record.{pair_at, key_at};

use crate::value::{Key, Pair, read_key};

// A record, and the area that its texts lie in.
#[derive(Clone, Copy, Debug)]
pub struct Record<'a> {
    pub cells: &'a [u64],
    pub area: &'a [u8],
}

pub fn cell(cells: &[u64], at: usize) -> u64
    ensures { result ≡ get_or cells.now at 0 }
{
    cells.get(at).copied().unwrap_or(0)
}

// The two cells from `at` on.
pub fn pair_at(cells: &[u64], at: usize) -> Pair
    ensures { pair_of result ≡ pair_at cells.now at }
{
    if at < cells.len() {
        return Pair::new(cells[at], cell(cells, at + 1));
    }
    Pair::new(0, 0)
}

pub fn key_at(area: &[u8], cells: &[u64], at: usize) -> Option<Key>
    ensures { result ≡ key_at area.now cells.now at }
{
    let pair = pair_at(cells, at);
    read_key(area, pair.kind, pair.payload)
}
