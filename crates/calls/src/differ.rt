// Questions 12 and 13 (01, the questions, call record): no key and no written name stands twice. A written name is a key that is a
// text, so both are asked by `keys_differ`, which takes the place of the Rust's `ArgNames::new_check_unique` too. They are asked of a
// record that passes 11, so that every key and name is well formed and the bytes of a text are all there to be compared.
// Reworked from starlark 0.14.2, src/eval/runtime/arguments.rs, Apache-2.0.
ghost use Rattle.std.specs.Prelude.{◌≡◌, true, false, ◌+◌};
ghost use Rattle.rules.specs.Value.{well_formed_key};
ghost use Rattle.rules.specs.CallQuestions.{well_formed_entry, keys_differ};
ghost use Rattle.cells.specs.Record.{pair_at};
ghost use Rattle.calls.specs.Runs.{Formed, key_there, keys_at, new_key};
ghost use Rattle.calls.specs.Keys.{same_read};

use crate::head::PAIR;
use crate::slot::{SLOTS, key_slot};
use cells::record::{Record, pair_at};
use cells::text::same_text;
use cells::value::{Key, read_key};

// 12, of the `count` entries from `from` on, and 13, of written pairs. The keys are taken from the last one back, with a mark at the slot of
// each: one whose slot has no mark is none of those behind it. Fewer than two need no marks. The Rust puts the names into a set; the marks
// and a plain search take its place.
pub(crate) fn keys_differ(record: &Record, from: usize, count: usize) -> bool
    requires { Formed (well_formed_entry record.now.area.now) record.now.cells.now from count }
    ensures { result ≡ keys_differ (keys_at record.now.area.now record.now.cells.now from count) }
{
    if count < 2 {
        return true;
    }
    let mut marks: [bool; SLOTS] = [false; SLOTS];
    for behind in 0..count {
        let at = from + PAIR * (count - behind - 1);
        let slot = key_slot(record, at);
        if !key_new(record, at, behind, marks[slot]) {
            return false;
        }
        marks[slot] = true;
    }
    true
}

// Is the key at `key` none of those of the `count` entries right behind it? Only where its slot has a mark are they looked at.
fn key_new(record: &Record, key: usize, count: usize, mark: bool) -> bool
    requires { (well_formed_key record.now.area.now (pair_at record.now.cells.now key) ≡ true) × Formed (well_formed_entry record.now.area.now) record.now.cells.now (key + 4) count × (mark ≡ false → new_key (key_there record.now.area.now record.now.cells.now key) (keys_at record.now.area.now record.now.cells.now (key + 4) count) ≡ true) }
    ensures { result ≡ new_key (key_there record.now.area.now record.now.cells.now key) (keys_at record.now.area.now record.now.cells.now (key + 4) count) }
{
    if !mark {
        return true;
    }
    let here = pair_at(record.cells, key);
    // Read once, and not for each of those behind it.
    let sought = read_key(record.area, here.kind, here.payload);
    let first = key + PAIR;
    for k in 0..count {
        let there = pair_at(record.cells, first + PAIR * k);
        let found = read_key(record.area, there.kind, there.payload);
        if same_read(record.area, sought, found) {
            return false;
        }
    }
    true
}

// Are two keys equal? Texts by their bytes, whole numbers by their value; a text is never equal to a whole number, and what is no key to nothing.
fn same_read(area: &[u8], a: Option<Key>, b: Option<Key>) -> bool
    ensures { result ≡ same_read area.now a b }
{
    match (a, b) {
        (Some(Key::Word(t)), Some(Key::Word(u))) => {
            same_text(area, t.payload(), area, u.payload())
        }
        (Some(Key::Number(m)), Some(Key::Number(n))) => m == n,
        _ => false,
    }
}
