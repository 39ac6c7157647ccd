// A value written as a cell of a sheet (01, sheets): a byte that says which form it has, then its digits or its text.
ghost use Rattle.std.specs.Prelude.{◌∷◌, ◌++◌, ◌+◌, ◌≤◌, length};
ghost use Rattle.rules.specs.SheetValue.{decimal as decimalOf, last_digits, print_whole, print_value};
ghost use Rattle.cells.specs.Value.{pair_of, cells_of};
ghost use Rattle.cells.specs.Out.{Wrote};
ghost use Rattle.sheet_values.specs.Print.{Printable};

use cells::out::Cursor;
use cells::text::part;
use cells::value::{Pair, Value};

// The value's cell.
pub fn write_value<'a>(spec: &'a [u8], call: &'a [u8], value: Value, line: &mut Cursor)
    requires at_in_bounds { line.old.at + 256 ≤ length line.old.out.now }
    requires printable { Printable spec.now call.now value }
    ensures { Wrote (print_value spec.now call.now (pair_of (cells_of value))) line.old line.new }
{
    let payload = Pair::from(value).payload;
    match value {
        Value::Nothing => line.write(b"n"),
        Value::Flag(_) => write_number(b"b", payload, line),
        Value::Whole(_) => write_whole(payload, line),
        Value::Real(_) => write_bits(payload, line),
        Value::Nan(_) => write_bits(payload, line),
        Value::SpecText(_) => write_marked(b"s", part(spec, payload), line),
        Value::CallText(_) => write_marked(b"s", part(call, payload), line),
        Value::Handle(_) => write_number(b"h", payload, line),
    }
}

// A whole number, with `-` before one that is below 0.
fn write_whole(payload: u64, line: &mut Cursor)
    requires { line.old.at + 22 ≤ length line.old.out.now }
    ensures { Wrote (105 ∷ print_whole payload) line.old line.new }
{
    if payload < 0x8000_0000_0000_0000 {
        write_number(b"i", payload, line);
    } else {
        write_number(b"i-", payload.wrapping_neg(), line);
    }
}

// The bits of a real, in 16 hexadecimal digits.
fn write_bits(payload: u64, line: &mut Cursor)
    requires { line.old.at + 17 ≤ length line.old.out.now }
    ensures { Wrote (114 ∷ last_digits 16 16 payload) line.old line.new }
{
    let mut digits = [0u8; 16];
    let count = io::hex(payload, 16, &mut digits);
    write_marked(b"r", &digits[..count], line);
}

// A mark and a text behind it, which may be empty.
fn write_marked<'a>(mark: &'a [u8], text: &'a [u8], line: &mut Cursor)
    requires { line.old.at + length mark.now + length text.now ≤ length line.old.out.now }
    ensures { Wrote (mark.now ++ text.now) line.old line.new }
{
    line.write(mark);
    line.write(text);
}

// A mark and a number behind it.
fn write_number(mark: &[u8], n: u64, line: &mut Cursor)
    requires { line.old.at + length mark.now + 20 ≤ length line.old.out.now }
    ensures { Wrote (mark.now ++ decimalOf n) line.old line.new }
{
    line.write(mark);
    write_decimal(n, line);
}

// A number's shortest decimal.
pub fn write_decimal(n: u64, line: &mut Cursor)
    requires { line.old.at + 20 ≤ length line.old.out.now }
    ensures { Wrote (decimalOf n) line.old line.new }
{
    let mut digits = [0u8; 20];
    let count = io::decimal(n, &mut digits);
    line.write(&digits[..count]);
}
