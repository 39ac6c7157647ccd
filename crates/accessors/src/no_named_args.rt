// A call without named values, neither written out nor in a dictionary (01, accessors; the Rust's `no_named_args`).
// Reworked from starlark 0.14.2, src/eval/runtime/arguments.rs, Apache-2.0.
ghost use Rattle.rules.specs.Accessors.{no_named_args};
ghost use Rattle.accessors.specs.Answer.{Answering};

use crate::answer::FunctionError;
use crate::entries::keys_are_texts;
use calls::ask_call;
use calls::head::Call;
use calls::place::named_at;
use cells::record::{Record, pair_at};

pub fn no_named_args(record: &Record) -> Result<usize, FunctionError>
    ensures { Answering (no_named_args 64 record.now.cells.now record.now.area.now) result }
{
    ask_call(record)?;
    let call = Call::new(record);
    let h = call.head;
    if h.double_kind == 2 {
        return Err(FunctionError::KwArgsIsNotDict);
    }
    if !keys_are_texts(&call) {
        return Err(FunctionError::ArgsValueIsNotString);
    }
    let count = h.n + h.d;
    if count == 0 {
        return Ok(0);
    }
    let first = pair_at(call.cells, named_at(h, 0));
    Err(FunctionError::ExtraNamedArg(count, first.payload))
}
