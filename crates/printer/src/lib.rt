// The printed list (01, printed list): `def f(a, /, b, *args, k, **kwargs)` is printed as it stands between the brackets. The items are those
// given by position only and behind them `/`, those given either way, `*args` or `*`, those given by name only, `**kwargs`.
// Reworked from starlark 0.14.2, src/eval/runtime/params/display.rs and spec.rs (parameters_str), Apache-2.0.
#![tactic(auto)]

ghost use Rattle.std.specs.Prelude.{◌≤◌};
ghost use Rattle.builder.specs.Params.{parameters_in};
ghost use Rattle.printer.specs.Line.{Room, Added};
ghost use Rattle.printer.specs.Printed.{positional_items, named_items, NamedReady, ListReady, ListWritten, Printing};

use builder::build;
use builder::params::CurrentParameterStyle;
use builder::spec::ParametersSpec;
use cells::question::Question;
use cells::record::Record;
use items::{any_item, write_items};
use line::Line;

pub mod items;
pub mod line;
pub mod name;

// How many bytes the output has at the least: 128 for each parameter that a list can hold.
pub const PRINTED: usize = 8192;

// How many bytes the list takes in the output. Questions 1 to 7, then 29; nothing is written before the last of them.
pub fn parameters_str(record: &Record, out: &mut [u8]) -> Result<usize, Question>
    ensures { Printing record.now.cells.now record.now.area.now out.old out.new result }
{
    let list = build(record)?;
    if out.len() < PRINTED {
        return Err(Question::ShortOutput);
    }
    Ok(write_list(&list, out))
}

// The whole list from byte 0 on, and its length.
fn write_list(list: &ParametersSpec, out: &mut [u8]) -> usize
    requires { ListReady list.now.area.now list.now out.old }
    ensures { ListWritten list.now.area.now list.now out.old out.new result }
{
    let mut line = Line::new(out);
    write_positional(list, &mut line);
    write_named(list, &mut line);
    line.at
}

// What is given by position: the items given so only and `/` behind them, and those given either way.
fn write_positional(list: &ParametersSpec, line: &mut Line)
    requires { (list.now.params.len ≤ 64) × Room (positional_items (parameters_in list.now.area.now list.now.params)) line.old }
    ensures { Added (positional_items (parameters_in list.now.area.now list.now.params)) line.old line.new }
{
    let slash = any_item(&list.params, CurrentParameterStyle::PosOnly).then_some(&b"/"[..]);
    write_items(list, CurrentParameterStyle::PosOnly, line);
    line.write_sign(slash);
    write_items(list, CurrentParameterStyle::PosOrNamed, line);
}

// What is not: `*args` or `*`, the items given by name only, `**kwargs`.
fn write_named(list: &ParametersSpec, line: &mut Line)
    requires { NamedReady list.now.area.now list.now line.old }
    ensures { Added (named_items (parameters_in list.now.area.now list.now.params)) line.old line.new }
{
    let args = list.indices.args.is_some().then_some(&b"*args"[..]);
    let bare = any_item(&list.params, CurrentParameterStyle::NamedOnly).then_some(&b"*"[..]);
    let kwargs = list.indices.kwargs.is_some().then_some(&b"**kwargs"[..]);
    line.write_sign(args.or(bare));
    write_items(list, CurrentParameterStyle::NamedOnly, line);
    line.write_sign(kwargs);
}
