// A set number of positionals and then some that may be missing (01, accessors; the Rust's `optional` and the short forms over it, whose
// two numbers are parameters here).
// Reworked from starlark 0.14.2, src/eval/runtime/arguments.rs, Apache-2.0.
ghost use Rattle.rules.specs.Accessors as rules;
ghost use Rattle.accessors.specs.Answer.{Accessing};

use crate::answer::FunctionError;
use crate::ask::ask_writing;
use calls::head::{Call, VALUE};
use calls::values::write_values;
use cells::question::Question;
use cells::record::Record;

// The greatest number that either part may have.
pub const MOST: usize = 64;

// `required` positionals, and up to `more` behind them. A missing one is written as two cells that are 0.
pub fn optional(
    record: &Record,
    required: usize,
    more: usize,
    out: &mut [u64],
) -> Result<usize, FunctionError>
    ensures { Accessing (rules.optional 64 64 required more record.now.cells.now record.now.area.now out.old) (rules.optional_cells required more record.now.cells.now record.now.area.now) out.old out.new result }
{
    if MOST < required || MOST < more {
        return Err(FunctionError::Record(Question::LargeNumbers));
    }
    ask_writing(record, out)?;
    let call = Call::new(record);
    let h = call.head;
    if h.star_kind == 2 {
        return Err(FunctionError::ArgsArrayIsNotIterable);
    }
    let got = h.p + h.s;
    let most = required + more;
    if got < required || most < got {
        return Err(FunctionError::WrongNumberOfArgs(required, most, got));
    }
    write_values(&call, 0, got, 0, out);
    out[VALUE * got..VALUE * most].fill(0);
    Ok(got)
}

// Just `required` positionals.
pub fn positional(record: &Record, required: usize, out: &mut [u64]) -> Result<usize, FunctionError>
    ensures { Accessing (rules.optional 64 64 required 0 record.now.cells.now record.now.area.now out.old) (rules.optional_cells required 0 record.now.cells.now record.now.area.now) out.old out.new result }
{
    optional(record, required, 0, out)
}

// No positional.
pub fn no_positional_args(record: &Record, out: &mut [u64]) -> Result<usize, FunctionError>
    ensures { Accessing (rules.optional 64 64 0 0 record.now.cells.now record.now.area.now out.old) (rules.optional_cells 0 0 record.now.cells.now record.now.area.now) out.old out.new result }
{
    positional(record, 0, out)
}

// One positional.
pub fn positional1(record: &Record, out: &mut [u64]) -> Result<usize, FunctionError>
    ensures { Accessing (rules.optional 64 64 1 0 record.now.cells.now record.now.area.now out.old) (rules.optional_cells 1 0 record.now.cells.now record.now.area.now) out.old out.new result }
{
    positional(record, 1, out)
}

// One positional or none.
pub fn optional1(record: &Record, out: &mut [u64]) -> Result<usize, FunctionError>
    ensures { Accessing (rules.optional 64 64 0 1 record.now.cells.now record.now.area.now out.old) (rules.optional_cells 0 1 record.now.cells.now record.now.area.now) out.old out.new result }
{
    optional(record, 0, 1, out)
}
