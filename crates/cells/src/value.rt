// Values (01, cells, texts and records): one enum with a case for each kind, converted to and from two cells. A value is well
// formed if reading its two cells gives one. Kinds are tested by number here, and elsewhere only whether a key that is well formed is a text.
ghost use Rattle.std.specs.Prelude.{◌≡◌, ◌≤◌};
ghost use Rattle.std.specs.Float.{binary64};
ghost use Rattle.std.specs.Float.Ieee.{to_bits};
ghost use Rattle.std.specs.Int.{w64};
ghost use Rattle.std.proofs.Common.{to_z, of_z};
ghost use Rattle.cells.specs.Value.{pair, cells_of, real_of, read_as, read_default, read_argument, read_slot, read_name, read_key};

use crate::text::{Text, read_text};

#[derive(Clone, Copy)]
pub enum Value {
    Nothing,
    Flag(bool),
    Whole(i64),
    // Every pattern of 64 bits but a NaN's.
    Real(f64),
    // The bits of a NaN: a float does not keep them, and 01 wants all 64 of them unchanged.
    Nan(u64),
    SpecText(Text),
    CallText(Text),
    Handle(u32),
}

// The two cells of a value.
#[derive(Clone, Copy, Debug, PartialEq, Eq)]
pub struct Pair {
    pub kind: u64,
    pub payload: u64,
}

// What a key is: a text of the call area, or a whole number.
#[derive(Clone, Copy, Debug, PartialEq, Eq)]
pub enum Key {
    Word(Text),
    Number(i64),
}

impl From<Value> for Pair {
    ghost from_gives = { λ value cells. cells ≡ cells_of value };

    fn from(value: Value) -> Pair {
        match value {
            Value::Nothing => Pair::new(1, 0),
            Value::Flag(b) => Pair::new(2, b as u64),
            Value::Whole(z) => Pair::new(3, z.cast_unsigned()),
            Value::Real(x) => Pair::new(4, bits_of_real(x)),
            Value::Nan(bits) => Pair::new(4, bits),
            Value::SpecText(t) => Pair::new(5, t.payload()),
            Value::CallText(t) => Pair::new(6, t.payload()),
            Value::Handle(h) => Pair::new(7, h as u64),
        }
    }
}

impl Pair {
    pub fn new(kind: u64, payload: u64) -> Pair
        ensures { result ≡ pair kind payload }
    {
        Pair { kind, payload }
    }
}

// The kinds of texts, by the area that they stand in.
const SPEC_TEXT: u64 = 5;

const CALL_TEXT: u64 = 6;

// A default: its texts lie in the spec area.
pub fn read_default(area: &[u8], kind: u64, payload: u64) -> Option<Value>
    ensures { result ≡ read_default area.now kind payload }
{
    read_as(SPEC_TEXT, area, kind, payload)
}

// A value of a call: its texts lie in the call area.
pub fn read_argument(area: &[u8], kind: u64, payload: u64) -> Option<Value>
    ensures { result ≡ read_argument area.now kind payload }
{
    read_as(CALL_TEXT, area, kind, payload)
}

// A value on a board: a text of kind 5 is a default's, anything else is as in a call.
pub fn read_slot(spec: &[u8], call: &[u8], kind: u64, payload: u64) -> Option<Value>
    ensures { result ≡ read_slot spec.now call.now kind payload }
{
    if kind == SPEC_TEXT {
        return read_default(spec, kind, payload);
    }
    read_argument(call, kind, payload)
}

// A value where `text` is the kind of text that is used. What is no text is the same wherever it stands.
fn read_as(text: u64, area: &[u8], kind: u64, payload: u64) -> Option<Value>
    requires { (5 ≤ text) × (text ≤ 6) }
    ensures { result ≡ read_as text area.now kind payload }
{
    match kind {
        1 => {
            if payload == 0 {
                return Some(Value::Nothing);
            }
            None
        }
        2 => {
            if payload < 2 {
                return Some(Value::Flag(payload == 1));
            }
            None
        }
        3 => Some(Value::Whole(payload.cast_signed())),
        4 => Some(real_of(payload)),
        7 => {
            if payload < 0x1_0000_0000 {
                return Some(Value::Handle(payload as u32));
            }
            None
        }
        _ => {
            if kind != text {
                return None;
            }
            let t = read_text(area, 0, payload)?;
            if text == SPEC_TEXT {
                return Some(Value::SpecText(t));
            }
            Some(Value::CallText(t))
        }
    }
}

// A key: a text in the call area or a whole number.
pub fn read_key(area: &[u8], kind: u64, payload: u64) -> Option<Key>
    ensures { result ≡ read_key area.now kind payload }
{
    match read_argument(area, kind, payload)? {
        Value::CallText(t) => Some(Key::Word(t)),
        Value::Whole(z) => Some(Key::Number(z)),
        _ => None,
    }
}

// A name: a key that is a text, and not an empty one.
pub fn read_name(area: &[u8], kind: u64, payload: u64) -> Option<Text>
    ensures { result ≡ read_name area.now kind payload }
{
    match read_key(area, kind, payload)? {
        Key::Word(t) if t.len != 0 => Some(t),
        _ => None,
    }
}

// The highest bit alone, a float's sign.
const SIGN: u64 = 0x8000_0000_0000_0000;

// The patterns of two floats.
const INFINITY: u64 = 0x7ff0_0000_0000_0000;

const QUIET_NAN: u64 = 0x7ff8_0000_0000_0000;

// With the sign taken off, a NaN's pattern is a number above infinity's.
fn real_of(bits: u64) -> Value
    ensures { result ≡ real_of bits }
{
    if INFINITY < bits % SIGN {
        return Value::Nan(bits);
    }
    Value::Real(f64::from_bits(bits))
}

// A float that is a NaN, which reading never makes, has the bits of the quiet one.
fn bits_of_real(x: f64) -> u64
    ensures { result ≡ to_bits binary64 x }
{
    if x != x {
        return QUIET_NAN;
    }
    f64::to_bits(x)
}
