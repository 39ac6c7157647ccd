// The cases of an input of sheets: two numbers on a line, how many bytes a sheet has and how many it prints, then these bytes and a line
// feed. Reading past the end gives nothing, so a short input shows as differences.
ghost use Rattle.std.specs.Prelude.{◌≡◌, length};

use crate::numbers::with_digit;

// Room for the cases.
const TEXT: usize = 524288;

// Where the bytes of a case stand, and where the line feed behind them does.
#[derive(Clone, Copy, Debug, PartialEq, Eq)]
pub struct Case {
    pub input: usize,
    pub output: usize,
    pub next: usize,
}

// A number, and where the byte behind it stands.
#[derive(Clone, Copy, Debug, PartialEq, Eq)]
struct Number {
    value: usize,
    end: usize,
}

// The `ensures` gives the length, which lending the array as a slice needs.
pub fn room_for_text() -> [u8; TEXT]
    ensures { 524288 ≡ length result }
{
    [0; TEXT]
}

pub fn first_case(text: &[u8]) -> Option<Case> {
    case_at(text, behind_comment(text))
}

// The case behind another, if there is one.
pub fn next_case(text: &[u8], case: Case) -> Option<Case> {
    case_at(text, case.next.wrapping_add(1))
}

// Two zeros end the cases.
fn case_at(text: &[u8], at: usize) -> Option<Case> {
    let sheet = number_at(text, at);
    let printed = number_at(text, sheet.end.wrapping_add(1));
    if sheet.value == 0 && printed.value == 0 {
        return None;
    }
    let input = printed.end.wrapping_add(1);
    let output = input.wrapping_add(sheet.value);
    Some(Case {
        input,
        output,
        next: output.wrapping_add(printed.value),
    })
}

// The decimal that begins at an index. It is read from there on: by `skip` each number would cost a step for every byte before it.
fn number_at(text: &[u8], at: usize) -> Number {
    let rest = text.get(at..).unwrap_or(&[]);
    let mut value = 0;
    for (i, byte) in rest.iter().enumerate() {
        if !byte.is_ascii_digit() {
            return Number {
                value: value as usize,
                end: at.wrapping_add(i),
            };
        }
        value = with_digit(value, *byte);
    }
    Number {
        value: value as usize,
        end: at.max(text.len()),
    }
}

// The start of the first line that does not begin with #.
fn behind_comment(text: &[u8]) -> usize {
    let mut fresh = true;
    for (i, byte) in text.iter().enumerate() {
        if fresh && *byte != b'#' {
            return i;
        }
        fresh = *byte == b'\n';
    }
    text.len()
}
