// Questions 9 to 14 (01, accessors): what an accessor asks before it writes.
ghost use Rattle.std.specs.Prelude.{◌≡◌};
ghost use Rattle.rules.specs.Accessors.{ask_writing};
ghost use Rattle.cells.specs.Question.{answer_of};

use calls::ask_call;
use cells::question::Question;
use cells::record::Record;

// The output is as long as a board, however little is written.
pub const OUTPUT: usize = 896;

pub(crate) fn ask_writing(record: &Record, out: &[u64]) -> Result<(), Question>
    ensures { answer_of result ≡ ask_writing 64 64 record.now.cells.now record.now.area.now out.now }
{
    ask_call(record)?;
    if out.len() < OUTPUT {
        return Err(Question::ShortBoard);
    }
    Ok(())
}
