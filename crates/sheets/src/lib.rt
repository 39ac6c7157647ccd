// Two sheets bound and read (01, sheets and the program bind): from the bytes of an input to the text that tells how the call binds, or to the
// two records, in lent outputs.
#![tactic(auto)]

ghost use Rattle.std.specs.Prelude.{◌≡◌};
ghost use Rattle.sheets.specs.Bind.{Binding, ReadRoom, TextOfRead};
ghost use Rattle.sheets.specs.Read.{room_for, SheetsReading};
ghost use Rattle.sheets.specs.declared.Unread.TheVariants.{Bad};

use records::{CALL_CELLS, Records, SPEC_CELLS, TEXTS, bind_sheets, write_records};
use sheet_judge::{BadLine, judge_input};
use sheet_output::outcome::write_refused_count;

pub mod records;

// An output of so many bytes has room for the text of any input.
pub const OUTPUT: usize = 40960;

// An input that breaks a rule is refused by this number, with the line as detail.
const BAD_INPUT: u64 = 30;

// An output that is too short for some input's text.
#[derive(Clone, Copy, Debug, PartialEq, Eq)]
pub struct NoRoom;

// Any bytes: where there is room for any text, the text of this input is written from byte 0 on, and otherwise nothing is. Answers how many
// bytes the text has.
pub fn bind(input: &[u8], out: &mut [u8]) -> Result<usize, NoRoom>
    ensures { Binding input.now out.old out.new result }
{
    if out.len() < OUTPUT {
        return Err(NoRoom);
    }
    match judge_input(input) {
        Ok(places) => Ok(bind_sheets(input, places, out)),
        Err(BadLine(line)) => Ok(write_refused_count(BAD_INPUT, line as u64, out)),
    }
}

// The text of an input of which the first n bytes of a buffer were read.
pub fn bind_read<'a>(buffer: &[u8], n: usize, out: &'a mut [u8]) -> &'a [u8]
    requires { ReadRoom buffer.now n out.old }
    ensures { TextOfRead buffer.now n result.now }
{
    let len = bind(&buffer[..n], out).unwrap();
    &out[..len]
}

// Why no records are read: 30 and the line that breaks a rule, or outputs that are too short for some input's records.
#[derive(Clone, Copy, Debug, PartialEq, Eq)]
pub enum Unread {
    Bad(BadLine),
    NoRoom,
}

impl From<BadLine> for Unread {
    ghost from_gives = { λ line unread. unread ≡ Bad line };

    fn from(line: BadLine) -> Unread {
        Unread::Bad(line)
    }
}

// Any bytes: where there is room for any records, those of this input are written from cell and byte 0 on, and otherwise nothing is. Answers
// how many cells and bytes both records take.
pub fn read_sheets(
    input: &[u8],
    spec_cells: &mut [u64],
    spec: &mut [u8],
    call_cells: &mut [u64],
    call: &mut [u8],
) -> Result<Records, Unread>
    ensures { SheetsReading input.now spec_cells.old spec.old call_cells.old call.old spec_cells.new spec.new call_cells.new call.new result }
{
    if !has_room(spec_cells.len(), spec.len(), call_cells.len(), call.len()) {
        return Err(Unread::NoRoom);
    }
    let places = judge_input(input)?;
    Ok(write_records(input, places, spec_cells, spec, call_cells, call))
}

// Have outputs of these lengths room for any records?
#[tactic(auto, unfolding(crate::specs::Read::room_for))]
fn has_room(spec_cells: usize, spec: usize, call_cells: usize, call: usize) -> bool
    ensures { result ≡ room_for spec_cells spec call_cells call }
{
    SPEC_CELLS <= spec_cells && TEXTS <= spec && CALL_CELLS <= call_cells && TEXTS <= call
}
