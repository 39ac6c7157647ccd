// The parameter list (01, on `ParametersSpecBuilder`): from a parameter record to the finished list, questions 1 to 7.
// Reworked from starlark 0.14.2, src/eval/runtime/params/spec.rs, Apache-2.0.
#![tactic(auto)]

ghost use Rattle.builder.specs.Build.{Building, Taking};

use cells::question::Question;
use cells::record::Record;
use record::{codes_known, defaults_right, names_inside, step_at, step_count, whole_steps};
use spec::{ParametersSpec, ParametersSpecBuilder, Stepped};

pub mod params;
pub mod record;
pub mod spec;

// The list that a parameter record describes: 1 to 4 are each put to the whole record, 5 to 7 step by step.
pub fn build<'a>(record: &Record<'a>) -> Result<ParametersSpec<'a>, Question>
    ensures { Building record.now.cells.now record.now.area.now result }
{
    if !whole_steps(record.cells) {
        return Err(Question::PartialStep);
    }
    if !codes_known(record.cells) {
        return Err(Question::UnknownCode);
    }
    if !names_inside(record) {
        return Err(Question::NameOutside);
    }
    if !defaults_right(record) {
        return Err(Question::WrongDefault);
    }
    let taken = take_steps(record);
    taken.answer?;
    Ok(taken.builder.finish(record.area))
}

// All the steps of a record, from the builder without a parameter, up to the first that is refused.
fn take_steps(record: &Record) -> Stepped
    ensures { Taking record.now.cells.now record.now.area.now result }
{
    let m = step_count(record.cells);
    let mut stepped = Stepped {
        builder: ParametersSpecBuilder::new(),
        answer: Ok(()),
    };
    for i in 0..m {
        stepped = stepped.builder.step(record.area, step_at(record.cells, i));
        if stepped.answer.is_err() {
            return stepped;
        }
    }
    stepped
}
