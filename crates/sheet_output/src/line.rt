// The cells of a line (01, sheets), each with the byte behind it: a comma, or the line's end.
ghost use Rattle.std.specs.Prelude.{◌≡◌, [], ◌∷◌, ◌++◌, ◌+◌, ◌≤◌, length};
ghost use Rattle.rules.specs.SheetValue.{decimal};
ghost use Rattle.cells.specs.Value.{pair_of};
ghost use Rattle.cells.specs.Out.{Wrote};
ghost use Rattle.sheet_output.specs.Line.{shown_name, shown_value, plain_code, name_for, shown_for};

use cells::out::Cursor;
use cells::text::{part, read_text};
use cells::value::{Pair, read_slot};
use sheet_values::print::{write_decimal, write_value};

// What is printed of a call that was bound: the area of the list's texts and that of its own, and the board as binding left it.
#[derive(Clone, Copy, Debug)]
pub(crate) struct Bound<'a> {
    pub spec: &'a [u8],
    pub call: &'a [u8],
    pub board: &'a [u64],
}

// Some bytes.
pub(crate) fn text_cell(text: &[u8], end: &[u8], line: &mut Cursor)
    requires { line.old.at + length text.now + length end.now ≤ length line.old.out.now }
    ensures { Wrote (text.now ++ end.now) line.old line.new }
{
    line.write(text);
    line.write(end);
}

// A number.
pub(crate) fn number_cell(n: u64, end: &[u8], line: &mut Cursor)
    requires { line.old.at + 20 + length end.now ≤ length line.old.out.now }
    ensures { Wrote (decimal n ++ end.now) line.old line.new }
{
    write_decimal(n, line);
    line.write(end);
}

// The value of two cells, last in its line; nothing where they are no value, as those of an empty slot.
pub(crate) fn value_cell(bound: &Bound, pair: Pair, line: &mut Cursor)
    requires { line.old.at + 257 ≤ length line.old.out.now }
    ensures { Wrote (shown_value bound.now.spec.now bound.now.call.now (pair_of pair) ++ (10 ∷ [])) line.old line.new }
{
    write_shown(bound, pair, line);
    line.write(b"\n");
}

fn write_shown(bound: &Bound, pair: Pair, line: &mut Cursor)
    requires { line.old.at + 256 ≤ length line.old.out.now }
    ensures { Wrote (shown_value bound.now.spec.now bound.now.call.now (pair_of pair)) line.old line.new }
{
    if let Some(v) = read_slot(bound.spec, bound.call, pair.kind, pair.payload) {
        write_value(bound.spec, bound.call, v, line);
    }
}

// The bytes of a name in its area; none where the payload is no text's.
pub(crate) fn name_in<'a>(area: &'a [u8], payload: u64) -> &'a [u8]
    ensures { result.now ≡ shown_name area.now payload }
{
    match read_text(area, 0, payload) {
        Some(_) => part(area, payload),
        None => &area[..0],
    }
}

// A parameter's name, by the code of its step: `*args` and `**kwargs` have none of their own.
pub(crate) fn name_cell(spec: &[u8], code: u8, name: u64, line: &mut Cursor)
    requires { line.old.at + 65 ≤ length line.old.out.now }
    ensures { Wrote (name_for code (shown_name spec.now name) ++ (44 ∷ [])) line.old line.new }
{
    if is_plain(code) {
        text_cell(name_in(spec, name), b",", line);
    } else if code == 6 {
        line.write(b"*args,");
    } else {
        line.write(b"**kwargs,");
    }
}

// What a parameter's two cells hold: its value, or how many values there are for `*args` and names for `**kwargs`.
pub(crate) fn held_cell(bound: &Bound, code: u8, pair: Pair, line: &mut Cursor)
    requires { line.old.at + 257 ≤ length line.old.out.now }
    ensures { Wrote (shown_for bound.now.spec.now bound.now.call.now code (pair_of pair) ++ (10 ∷ [])) line.old line.new }
{
    if is_plain(code) {
        value_cell(bound, pair, line);
    } else {
        number_cell(pair.payload, b"\n", line);
    }
}

// Is this the code of a parameter with a name of its own?
#[tactic(auto, using(crate::proofs::LawsLine::plain_zero, crate::proofs::LawsLine::plain_three, crate::proofs::LawsLine::plain_past))]
fn is_plain(code: u8) -> bool
    ensures { result ≡ plain_code code }
{
    matches!(code, 1..=3)
}
