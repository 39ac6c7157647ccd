// The keys of a call's dictionary, without a parameter list (01, questions 18 and 19 as accessors ask them): is a key a text, and is it
// none of the names of N before it? Asked of a record that passes 9 to 13.
// Reworked from starlark 0.14.2, src/eval/runtime/arguments.rs (names_map, no_named_args), Apache-2.0.
ghost use Rattle.std.specs.Prelude.{Ok, Err, ◌≡◌, true, cond, []};
ghost use Rattle.rules.specs.Listing.{all};
ghost use Rattle.rules.specs.Text.{among};
ghost use Rattle.rules.specs.Value.{well_formed_key};
ghost use Rattle.rules.specs.Binding.{texts_of, ask_entry, ask_entries};
ghost use Rattle.rules.specs.Accessors.{is_word};
ghost use Rattle.calls.specs.Head.{head_of};
ghost use Rattle.calls.specs.Places.{named_at};
ghost use Rattle.calls.specs.Named.{pair_entry, names_in, entries_in};
ghost use Rattle.cells.specs.Text.{part_at};
ghost use Rattle.cells.specs.Record.{pair_at, key_at};
ghost use Rattle.accessors.specs.Entries.{NamesInside, KeysFormed, word_read, entries_answer};
ghost use Rattle.answers.specs.declared.answer.EntryRefusal.TheVariants.{Repeated};

use answers::answer::EntryRefusal;
use calls::head::Call;
use calls::place::named_at;
use cells::record::{key_at, pair_at};
use cells::text::{part, same};
use cells::value::Key;

// 18 and 19 of all the entries, one entry after the other.
pub(crate) fn ask_entries(call: &Call) -> Result<(), EntryRefusal>
    requires { KeysFormed call.now.area.now call.now.cells.now (head_of call.now.head) × NamesInside call.now.area.now call.now.cells.now (head_of call.now.head) call.now.head.n }
    ensures { entries_answer result ≡ ask_entries [] [] (names_in call.now.area.now call.now.cells.now (head_of call.now.head) call.now.head.n) (entries_in call.now.area.now call.now.cells.now (head_of call.now.head) 0 call.now.head.d) }
{
    let h = call.head;
    for k in 0..h.d {
        ask_entry(call, h.n + k)?;
    }
    Ok(())
}

// 18 and 19 of the entry that is pair `count` of N.
fn ask_entry(call: &Call, count: usize) -> Result<(), EntryRefusal>
    requires { (well_formed_key call.now.area.now (pair_at call.now.cells.now (named_at 64 (head_of call.now.head) count)) ≡ true) × NamesInside call.now.area.now call.now.cells.now (head_of call.now.head) count }
    ensures { entries_answer result ≡ ask_entry [] [] (names_in call.now.area.now call.now.cells.now (head_of call.now.head) count) (pair_entry call.now.area.now call.now.cells.now (head_of call.now.head) count).key }
{
    match key_at(call.area, call.cells, named_at(call.head, count)) {
        Some(Key::Word(t)) => ask_name(call, count, t.payload()),
        Some(Key::Number(_)) => Err(EntryRefusal::NotText),
        None => Err(EntryRefusal::NotText),
    }
}

// 19 of the text of a payload, after the first `count` names of N.
fn ask_name(call: &Call, count: usize, payload: u64) -> Result<(), EntryRefusal>
    requires { NamesInside call.now.area.now call.now.cells.now (head_of call.now.head) count }
    ensures { result ≡ cond (among (part_at call.now.area.now payload) (texts_of (names_in call.now.area.now call.now.cells.now (head_of call.now.head) count))) (Err (Repeated payload)) (Ok tt) }
{
    if is_named(call, count, part(call.area, payload)) {
        return Err(EntryRefusal::Repeated(payload));
    }
    Ok(())
}

// Is a name one of the first `count` names of N? The Rust puts the names into a map; a plain search takes its place.
fn is_named(call: &Call, count: usize, name: &[u8]) -> bool
    requires { NamesInside call.now.area.now call.now.cells.now (head_of call.now.head) count }
    ensures { result ≡ among name.now (texts_of (names_in call.now.area.now call.now.cells.now (head_of call.now.head) count)) }
{
    (0..count).any(|k| {
        let named = pair_at(call.cells, named_at(call.head, k));
        same(name, part(call.area, named.payload))
    })
}

// 18 of all the entries.
pub(crate) fn keys_are_texts(call: &Call) -> bool
    requires { KeysFormed call.now.area.now call.now.cells.now (head_of call.now.head) }
    ensures { result ≡ all (λ e. is_word e.key) (entries_in call.now.area.now call.now.cells.now (head_of call.now.head) 0 call.now.head.d) }
{
    let h = call.head;
    (h.n..h.n + h.d).all(|k| is_text(call, named_at(h, k)))
}

// Is what stands at a cell read as a text?
fn is_text(call: &Call, at: usize) -> bool
    ensures { result ≡ word_read (key_at call.now.area.now call.now.cells.now at) }
{
    matches!(key_at(call.area, call.cells, at), Some(Key::Word(_)))
}
