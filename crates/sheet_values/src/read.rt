// A cell of a sheet read as a value (01, sheets): by its first byte, each form with its own digits.
ghost use Rattle.std.specs.Prelude.{◌≡◌, true, List, [], ℕ, ◌≤◌, ◌+◌, ◌^◌};
ghost use Rattle.std.proofs.Math.Option.{some};
ghost use Rattle.rules.specs.Value.{well_formed_argument};
ghost use Rattle.rules.specs.SheetValue.{written, is_digit, read_decimal, read_whole, read_bits, read_form, read_cell};
ghost use Rattle.cells.specs.Value.{value};
ghost use Rattle.sheet_values.specs.Read.{number_of, cell_of, taken, below, hex_worth};

use cells::value::{Value, read_argument};

// What a cell stands for.
#[derive(Clone, Copy)]
pub enum Cell {
    Value(Value),
    // `s`, and behind it the text's bytes.
    Text,
}

// What a cell stands for, if it has one of the forms. A text stays where it is: the caller has the cell.
#[tactic(auto, unfolding(rules::specs::SheetValue::read_form))]
pub fn read_cell(cell: &[u8]) -> Option<Cell>
    ensures { cell_of cell.now result ≡ read_cell cell.now }
{
    let (form, rest) = cell.split_first()?;
    match *form {
        b'n' => read_nothing(rest),
        b'b' => read_flag(rest),
        b'i' => under(3, read_whole(rest)?),
        b'r' => under(4, read_bits(rest)?),
        b's' => Some(Cell::Text),
        b'h' => under(7, read_decimal(rest, 0x1_0000_0000)?),
        _ => None,
    }
}

// `n` has nothing behind it.
fn read_nothing(rest: &[u8]) -> Option<Cell>
    ensures { (bytes : List ℕ) → cell_of bytes result ≡ read_form 110 rest.now }
{
    rest.is_empty().then_some(Cell::Value(Value::Nothing))
}

// `b` has one digit behind it, `0` or `1`.
fn read_flag(rest: &[u8]) -> Option<Cell>
    ensures { (bytes : List ℕ) → cell_of bytes result ≡ read_form 98 rest.now }
{
    if rest.len() != 1 {
        return None;
    }
    under(2, read_decimal(rest, 2)?)
}

// A value of a kind. Its payload is converted as any argument's is, to which no area matters.
fn under(kind: u64, n: u64) -> Option<Cell>
    requires { well_formed_argument [] (value kind n) ≡ true }
    ensures { (bytes : List ℕ) → cell_of bytes result ≡ some (written (value kind n)) }
{
    Some(Cell::Value(read_argument(b"", kind, n)?))
}

// A whole number in two's complement, behind `-` where it is below 0. The least one is -2^63, so 2^63 is allowed there, and 0 is not.
fn read_whole(digits: &[u8]) -> Option<u64>
    ensures { number_of result ≡ read_whole digits.now }
{
    let Some(rest) = digits.strip_prefix(b"-") else {
        return read_decimal(digits, 0x8000_0000_0000_0000);
    };
    let n = read_decimal(rest, 0x8000_0000_0000_0001)?;
    (n != 0).then_some(n.wrapping_neg())
}

// A number below the limit, written as its shortest decimal: `0` stands in front of nothing.
fn read_decimal(digits: &[u8], limit: u64) -> Option<u64>
    requires { limit ≤ 2 ^ 63 + 1 }
    ensures { number_of result ≡ read_decimal limit digits.now }
{
    if digits.is_empty() {
        return None;
    }
    if 1 < digits.len() && digits[0] == b'0' {
        return None;
    }
    read_digits(digits, limit)
}

// Decimal digits of a number below the limit. A number that a `u64` does not hold is past every limit.
fn read_digits(digits: &[u8], limit: u64) -> Option<u64>
    requires { limit ≤ 2 ^ 63 + 1 }
    ensures { number_of result ≡ below limit (taken is_digit 10 0 digits.now) }
{
    let mut n: u64 = 0;
    for b in digits {
        if !b.is_ascii_digit() {
            return None;
        }
        n = n.checked_mul(10)?.checked_add(u64::from(*b - b'0'))?;
    }
    (n < limit).then_some(n)
}

// The 64 bits of a real: 16 hexadecimal digits, in lower case.
fn read_bits(digits: &[u8]) -> Option<u64>
    ensures { number_of result ≡ read_bits digits.now }
{
    if digits.len() != 16 {
        return None;
    }
    let mut n = 0;
    for b in digits {
        n = n * 16 + hex_digit(*b)?;
    }
    Some(n)
}

// What a hexadecimal digit is worth.
#[tactic(auto, using(std::proofs::lemmas::Bool::Decides::nat_tests), unfolding(crate::specs::Read::hex_worth))]
fn hex_digit(b: u8) -> Option<u64>
    ensures { number_of result ≡ hex_worth b }
{
    match b {
        b'0'..=b'9' => Some(u64::from(b - b'0')),
        b'a'..=b'f' => Some(u64::from(b - b'a' + 10)),
        _ => None,
    }
}
