// The slot of a key in a table with a mark for each slot (01, questions 12 and 13): equal keys have the same slot, so that one whose slot
// nobody took differs from all that were put there.
ghost use Rattle.std.specs.Prelude.{◌≡◌, true};
ghost use Rattle.rules.specs.Value.{well_formed_key};
ghost use Rattle.cells.specs.Record.{pair_at};
ghost use Rattle.calls.specs.Runs.{key_there};
ghost use Rattle.calls.specs.Slots.{key_slot};

use cells::key::last_key;
use cells::record::{Record, pair_at};

// Enough that few of 64 names share a slot. A prime, so that each byte of a number counts in its remainder; and one for which two bytes side by
// side do not make up for each other unless one of them is off by 29 or more: names that differ in two digits have slots of their own.
pub const SLOTS: usize = 929;

// The slot of the key at an index: of a text by its last bytes, since names that begin alike mostly end differently, and of a whole number
// by its remainder.
pub(crate) fn key_slot(record: &Record, at: usize) -> usize
    requires { well_formed_key record.now.area.now (pair_at record.now.cells.now at) ≡ true }
    ensures { result ≡ key_slot (key_there record.now.area.now record.now.cells.now at) }
{
    let key = pair_at(record.cells, at);
    if key.kind == 6 {
        return (last_key(record.area, key.payload) as usize) % SLOTS;
    }
    (key.payload as usize) % SLOTS
}
