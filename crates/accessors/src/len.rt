// How many arguments a call has (01, accessors; the Rust's `len`): those in a star's list and in a dictionary are counted each by itself,
// and a name that stands in both places twice.
// Reworked from starlark 0.14.2, src/eval/runtime/arguments.rs, Apache-2.0.
ghost use Rattle.rules.specs.Accessors as rules;
ghost use Rattle.accessors.specs.Answer.{Answering};

use crate::answer::FunctionError;
use calls::ask_call;
use calls::head::read_head;
use cells::record::Record;

pub fn len(record: &Record) -> Result<usize, FunctionError>
    ensures { Answering (rules.len 64 record.now.cells.now record.now.area.now) result }
{
    ask_call(record)?;
    let h = read_head(record.cells);
    if h.star_kind == 2 {
        return Err(FunctionError::ArgsArrayIsNotIterable);
    }
    if h.double_kind == 2 {
        return Err(FunctionError::KwArgsIsNotDict);
    }
    let positional = h.p + h.s;
    let named = h.n + h.d;
    Ok(positional + named)
}
