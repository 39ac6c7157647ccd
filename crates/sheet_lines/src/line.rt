// The cells of a line (01, sheets): three, parted by two commas, none over 255 bytes.
ghost use Rattle.std.specs.Prelude.{◌≡◌, eqb, leb, length};
ghost use Rattle.rules.specs.SheetLines.{cells_in, three_cells};
ghost use Rattle.sheet_lines.specs.Line.{CellsRead};

use crate::piece::split_once;

pub(crate) const COMMA: u8 = 44;

// The bytes that a cell may have.
const LONGEST: usize = 255;

// A line's three cells.
#[derive(Clone, Copy, Debug)]
pub struct Cells<'a> {
    pub first: &'a [u8],
    pub second: &'a [u8],
    pub third: &'a [u8],
}

// The three cells of a line, each short enough.
pub fn three_cells<'a>(line: &'a [u8]) -> Option<Cells<'a>>
    ensures { CellsRead (three_cells (cells_in line.now)) line.now result }
{
    let cells = parted(line)?;
    if short(cells.first) && short(cells.second) && short(cells.third) {
        return Some(cells);
    }
    None
}

// The three cells of a line, however long. A header is asked no more than that.
pub(crate) fn parted<'a>(line: &'a [u8]) -> Option<Cells<'a>>
    ensures { CellsRead (eqb (length (cells_in line.now)) 3) line.now result }
{
    let (first, rest) = split_once(COMMA, line)?;
    let (second, third) = split_once(COMMA, rest)?;
    match split_once(COMMA, third) {
        Some(_) => None,
        None => Some(Cells {
            first,
            second,
            third,
        }),
    }
}

// Has the cell no more bytes than a cell may have?
fn short(cell: &[u8]) -> bool
    ensures { result ≡ leb (length cell.now) 255 }
{
    cell.len() <= LONGEST
}
