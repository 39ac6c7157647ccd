// The parts of an accepted call's text (01, sheets): a line for each slot, then the star remainder's lines, then the named one's.
ghost use Rattle.std.specs.Prelude.{◌++◌, ◌+◌, ◌*◌, ◌≤◌, ◌<◌, length};
ghost use Rattle.cells.specs.Value.{pair_of};
ghost use Rattle.cells.specs.Out.{Wrote};
ghost use Rattle.sheet_output.specs.Parts.{lines_to, slot_line_at, star_line, named_line, element_line, remainder_text, remainder_most, Near};

use crate::line::{Bound, held_cell, name_cell, name_in, number_cell, text_cell, value_cell};
use builder::params::Parameters;
use cells::out::Cursor;
use cells::record::pair_at;
use cells::value::Pair;

// Which remainder: values, of two cells each, or names with values, of four.
#[derive(Clone, Copy, Debug, PartialEq, Eq)]
pub enum Sort {
    Star,
    Named,
}

// A remainder on the board: which it is, the cell where it begins, and how many elements it has.
#[derive(Clone, Copy, Debug, PartialEq, Eq)]
pub struct Remainder {
    pub sort: Sort,
    pub from: usize,
    pub count: usize,
}

// A line for each slot.
pub(crate) fn write_slots(bound: &Bound, params: &Parameters, output: &mut Cursor)
    requires { (params.now.len ≤ 64) × (output.old.at + 152 * params.now.len + 512 ≤ length output.old.out.now) }
    ensures { Wrote (lines_to (slot_line_at bound.now.spec.now bound.now.call.now params.now bound.now.board.now) params.now.len) output.old output.new }
{
    for i in 0..params.len {
        write_slot(bound, params, i, output);
    }
}

// The slot at an index, by the code and the name of its parameter.
fn write_slot(bound: &Bound, params: &Parameters, i: usize, output: &mut Cursor)
    requires { (i < 64) × (output.old.at + 512 ≤ length output.old.out.now) }
    ensures { Wrote (slot_line_at bound.now.spec.now bound.now.call.now params.now bound.now.board.now i) output.old output.new }
{
    let code = params.codes[i];
    number_cell(i as u64, b",", output);
    name_cell(bound.spec, code, params.names[i], output);
    held_cell(bound, code, pair_at(bound.board, 2 * i), output);
}

// Both remainders, one behind the other.
pub(crate) fn write_remainders(
    bound: &Bound,
    first: Remainder,
    second: Remainder,
    output: &mut Cursor,
)
    requires { Near first × Near second × (output.old.at + remainder_most first + remainder_most second + 512 ≤ length output.old.out.now) }
    ensures wrote { Wrote (remainder_text bound.now.spec.now bound.now.call.now bound.now.board.now first ++ remainder_text bound.now.spec.now bound.now.call.now bound.now.board.now second) output.old output.new }
    ensures room { output.new.at + 512 ≤ length output.new.out.now }
{
    write_remainder(bound, first, output);
    write_remainder(bound, second, output);
}

// A line for each element of a remainder.
fn write_remainder(bound: &Bound, rest: Remainder, output: &mut Cursor)
    requires { Near rest × (output.old.at + remainder_most rest + 512 ≤ length output.old.out.now) }
    ensures { Wrote (remainder_text bound.now.spec.now bound.now.call.now bound.now.board.now rest) output.old output.new }
{
    for k in 0..rest.count {
        write_element(bound, rest, k, output);
    }
}

// Element k of a remainder.
fn write_element(bound: &Bound, rest: Remainder, k: usize, output: &mut Cursor)
    requires { (rest.from ≤ 1024) × (k ≤ 128) × (output.old.at + 512 ≤ length output.old.out.now) }
    ensures { Wrote (element_line rest.sort bound.now.spec.now bound.now.call.now bound.now.board.now rest.from k) output.old output.new }
{
    match rest.sort {
        Sort::Star => write_star(bound, pair_at(bound.board, rest.from + 2 * k), output),
        Sort::Named => {
            let key = rest.from + 4 * k;
            let name = pair_at(bound.board, key);
            let value = pair_at(bound.board, key + 2);
            write_name(bound, name, value, output);
        }
    }
}

// `star`, nothing and the value.
fn write_star(bound: &Bound, value: Pair, output: &mut Cursor)
    requires { output.old.at + 512 ≤ length output.old.out.now }
    ensures { Wrote (star_line bound.now.spec.now bound.now.call.now (pair_of value)) output.old output.new }
{
    output.write(b"star,,");
    value_cell(bound, value, output);
}

// `named`, the name and the value.
fn write_name(bound: &Bound, key: Pair, value: Pair, output: &mut Cursor)
    requires { output.old.at + 512 ≤ length output.old.out.now }
    ensures { Wrote (named_line bound.now.spec.now bound.now.call.now (pair_of key) (pair_of value)) output.old output.new }
{
    output.write(b"named,");
    text_cell(name_in(bound.call, key.payload), b",", output);
    value_cell(bound, value, output);
}
