// The first line of a sheet (01, sheets): it names the columns part, name and value, in any order, each once.
ghost use Rattle.sheet_lines.specs.Header.{HeaderRead};

use crate::line::parted;
use crate::word::position;

// Which of a row's three cells, counted from 0, is its part, its name and its value.
#[derive(Clone, Copy, Debug, PartialEq, Eq)]
pub struct Columns {
    pub part: usize,
    pub name: usize,
    pub value: usize,
}

// The header that a line is, if the three words stand in its cells. Three words that all stand among three cells stand there once each.
pub fn read_header(line: &[u8]) -> Option<Columns>
    ensures { HeaderRead line.now result }
{
    parted(line)?;
    let part = position(b"part", line)?;
    let name = position(b"name", line)?;
    let value = position(b"value", line)?;
    Some(Columns { part, name, value })
}
