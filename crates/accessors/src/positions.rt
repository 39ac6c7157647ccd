// All positionals, those written out and those of the star (01, accessors; the Rust's `positions`).
// Reworked from starlark 0.14.2, src/eval/runtime/arguments.rs, Apache-2.0.
ghost use Rattle.rules.specs.Accessors as rules;
ghost use Rattle.accessors.specs.Answer.{Accessing};

use crate::answer::FunctionError;
use crate::ask::ask_writing;
use calls::head::Call;
use calls::values::write_values;
use cells::record::Record;

pub fn positions(record: &Record, out: &mut [u64]) -> Result<usize, FunctionError>
    ensures { Accessing (rules.positions 64 64 record.now.cells.now record.now.area.now out.old) (rules.positions_cells record.now.cells.now record.now.area.now) out.old out.new result }
{
    ask_writing(record, out)?;
    let call = Call::new(record);
    let h = call.head;
    if h.star_kind == 2 {
        return Err(FunctionError::ArgsArrayIsNotIterable);
    }
    let got = h.p + h.s;
    write_values(&call, 0, got, 0, out);
    Ok(got)
}
