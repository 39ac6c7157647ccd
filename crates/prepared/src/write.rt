// A built list laid out in lent cells: two cells in front, then a row for each parameter.
ghost use Rattle.std.specs.Prelude.{◌≡◌, ◌+◌, ◌*◌, ◌<◌, ◌≤◌, length};
ghost use Rattle.rules.specs.Cells.{over};
ghost use Rattle.rules.specs.Parameters.{rank};
ghost use Rattle.cells.specs.Out.{stored};
ghost use Rattle.cells.specs.Value.{pair_of};
ghost use Rattle.builder.specs.Params.{style_for, parameters_in, parameter_at};
ghost use Rattle.prepared.specs.Prepared.{row_cells, row_of, prepared_cells};
ghost use Rattle.prepared.specs.Rows.{row_in};
ghost use Rattle.prepared.specs.Written.{code_as, default_as};

use crate::row::{FRONT, ROW, Row, key_of};
use builder::params::Step;
use builder::spec::ParametersSpec;
use cells::out::put;
use cells::value::Pair;

// All of it, from cell 0 on; the cells behind it are kept.
pub(crate) fn write_list(list: &ParametersSpec, function: u64, out: &mut [u64])
    requires { (list.now.params.len ≤ 64) × (2 + 6 * list.now.params.len ≤ length out.old) }
    ensures { out.new ≡ over (prepared_cells function (parameters_in list.now.area.now list.now.params)) out.old }
{
    put(out, 0, Pair::new(list.params.len as u64, function));
    for i in 0..list.params.len {
        put_row(row_for(list, i), FRONT + ROW * i, out);
    }
}

// A row's six cells, from cell `at` on, where all of them are inside.
fn put_row(row: Row, at: usize, out: &mut [u64])
    requires { at + 6 ≤ length out.old }
    ensures { out.new ≡ stored out.old at (row_cells (row_in row)) }
{
    out[at..at + ROW].copy_from_slice(&[
        row.step.code,
        row.style,
        row.step.name,
        row.step.default_kind,
        row.step.default_payload,
        row.key,
    ]);
}

// The row of the parameter at an index, from what the columns keep of it.
fn row_for(list: &ParametersSpec, i: usize) -> Row
    requires { i < 64 }
    ensures { row_in result ≡ row_of (parameter_at list.now.area.now list.now.params i) }
{
    let params = &list.params;
    let code = params.codes[i];
    let name = params.names[i];
    let held = default_for(
        code,
        Pair::new(params.default_kinds[i], params.default_payloads[i]),
    );
    Row {
        step: Step {
            code: code_for(code),
            name,
            default_kind: held.kind,
            default_payload: held.payload,
        },
        style: style_for(params.styles[i]),
        key: key_of(list.area, name),
    }
}

// By the builder's reading, a code that adds no parameter is that of `**kwargs`.
fn code_for(code: u8) -> u64
    ensures { result ≡ code_as code }
{
    match code {
        1..=3 => code as u64,
        6 => 6,
        _ => 7,
    }
}

// And a number above the last style's is the last style's.
fn style_for(style: u8) -> u64
    ensures { result ≡ rank (style_for style) }
{
    (style as u64).min(3)
}

// Only code 3 has a default.
fn default_for(code: u8, default: Pair) -> Pair
    ensures { pair_of result ≡ default_as code (pair_of default) }
{
    if code == 3 { default } else { Pair::new(0, 0) }
}
