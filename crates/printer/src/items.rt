// The items of one sort of parameters (01, printed list): those of codes 1 to 3 that were added under a style.
// Reworked from starlark 0.14.2, src/eval/runtime/params/display.rs (iter_fmt_param_spec), Apache-2.0.
ghost use Rattle.std.specs.Prelude.{true, List, [], ◌∷◌, ◌≡◌, ℕ, ◌≤◌, ◌<◌};
ghost use Rattle.rules.specs.Listing.{any};
ghost use Rattle.rules.specs.Parameters.{comes_before, no_more};
ghost use Rattle.rules.specs.Printed.{items_of};
ghost use Rattle.builder.specs.Params.{style_of, parameter_at, parameters_in};
ghost use Rattle.printer.specs.Items.{is_under, under};
ghost use Rattle.printer.specs.Line.{Room, Added};

use crate::line::Line;
use crate::name::printed_name;
use builder::params::{CurrentParameterStyle, Parameters};
use builder::spec::ParametersSpec;

// All items of a style, in their order.
pub(crate) fn write_items(list: &ParametersSpec, style: CurrentParameterStyle, line: &mut Line)
    requires { (list.now.params.len ≤ 64) × (comes_before (style_of style) no_more ≡ true) × Room (items_of (under (style_of style)) (parameters_in list.now.area.now list.now.params)) line.old }
    ensures { Added (items_of (under (style_of style)) (parameters_in list.now.area.now list.now.params)) line.old line.new }
{
    for i in 0..list.params.len {
        write_parameter(list, i, style, line);
    }
}

// Is there one?
pub(crate) fn any_item(params: &Parameters, style: CurrentParameterStyle) -> bool
    requires { (params.now.len ≤ 64) × (comes_before (style_of style) no_more ≡ true) }
    ensures { (area : List ℕ) → result ≡ any (under (style_of style)) (parameters_in area params.now) }
{
    (0..params.len).any(|i| is_under(params.codes[i], params.styles[i], style))
}

// The item of the parameter at an index, if it is one of the style.
fn write_parameter(list: &ParametersSpec, i: usize, style: CurrentParameterStyle, line: &mut Line)
    requires { (i < 64) × (comes_before (style_of style) no_more ≡ true) × Room (items_of (under (style_of style)) (parameter_at list.now.area.now list.now.params i ∷ [])) line.old }
    ensures { Added (items_of (under (style_of style)) (parameter_at list.now.area.now list.now.params i ∷ [])) line.old line.new }
{
    let code = list.params.codes[i];
    if is_under(code, list.params.styles[i], style) {
        let name = printed_name(list.area, list.params.names[i]);
        line.write_item(name, code);
    }
}

// Is this the code of a plain parameter, and this the number of the style?
fn is_under(code: u8, number: u8, style: CurrentParameterStyle) -> bool
    ensures { result ≡ is_under (style_of style) code number }
{
    match code {
        1..=3 => number == style.number(),
        _ => false,
    }
}
