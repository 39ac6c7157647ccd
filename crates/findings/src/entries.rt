// The entries of a call's dictionary (01, questions 18 and 19), asked one by one before anything is written, and resolved like the
// written names. Reworked from starlark 0.14.2, src/eval/runtime/params/spec.rs (collect_slow), Apache-2.0.
ghost use Rattle.std.specs.Prelude.{◌≡◌};
ghost use Rattle.findings.specs.Resolve.{OneEach, with_count};
ghost use Rattle.findings.specs.Entries.{Held, held_names, taken_by, word_in, entered_in};
ghost use Rattle.findings.specs.EntriesDone.{EntriesLent, EntriesResolved};
ghost use Rattle.calls.specs.Head.{head_of};

use crate::resolve::{Resolution, behind};
use answers::answer::EntryRefusal;
use builder::spec::ParametersSpec;
use calls::head::{Call, PAIR, entries_from};
use cells::record::key_at;
use cells::text::part;
use cells::value::Key;
use lookup::find_from;

// All the entries, after the written names, or the first refusal. `near` is where the first is looked for first.
pub fn resolve_entries(
    list: &ParametersSpec,
    call: &Call,
    near: usize,
    resolved: &mut Resolution,
) -> Result<(), EntryRefusal>
    requires { EntriesLent list.now.area.now list.now call.now.cells.now call.now.area.now (head_of call.now.head) resolved.old.next resolved.old.sources resolved.old.rest resolved.old.count }
    ensures entries { EntriesResolved list.now.area.now list.now call.now.cells.now call.now.area.now (head_of call.now.head) resolved.old.next resolved.old.sources resolved.old.rest resolved.old.count resolved.new.sources resolved.new.rest (with_count result resolved.new.count) }
    ensures next { resolved.new.next ≡ resolved.old.next }
{
    let from = entries_from(call.head);
    let mut guess = near;
    for k in 0..call.head.d {
        let pair = from + PAIR * k;
        let found = entry_at(list, call, pair, guess, resolved)?;
        guess = behind(found, guess);
        resolved.enter(found, pair);
    }
    Ok(())
}

// 18 and 19 of the entry at a cell: the parameter that it may fill, or the refusal. The search starts at `near`.
#[tactic(auto, unfolding(crate::specs::Entries::entered_in))]
fn entry_at(
    list: &ParametersSpec,
    call: &Call,
    pair: usize,
    near: usize,
    resolved: &Resolution,
) -> Result<Option<usize>, EntryRefusal>
    requires { Held call.now.area.now call.now.cells.now resolved.now.rest resolved.now.count × OneEach list.now.area.now list.now.params }
    ensures { result ≡ entered_in list.now.area.now list.now.params call.now.area.now call.now.cells.now pair resolved.now.next resolved.now.sources resolved.now.rest resolved.now.count }
{
    match key_at(call.area, call.cells, pair) {
        Some(Key::Word(t)) => word_at(list, call, t.payload(), near, resolved),
        _ => Err(EntryRefusal::NotText),
    }
}

// 19 of an entry whose key is the text of this payload.
#[tactic(auto, unfolding(crate::specs::Entries::word_in))]
fn word_at(
    list: &ParametersSpec,
    call: &Call,
    payload: u64,
    near: usize,
    resolved: &Resolution,
) -> Result<Option<usize>, EntryRefusal>
    requires { Held call.now.area.now call.now.cells.now resolved.now.rest resolved.now.count × OneEach list.now.area.now list.now.params }
    ensures { result ≡ word_in list.now.area.now list.now.params call.now.area.now call.now.cells.now resolved.now.next resolved.now.sources resolved.now.rest resolved.now.count payload }
{
    let name = part(call.area, payload);
    let found = find_from(list, near, name);
    if resolved.is_taken(found, call, name) {
        return Err(EntryRefusal::Repeated(payload));
    }
    Ok(found)
}

impl Resolution {
    // Is what was found taken: a slot that a value of P or an earlier name fills, or a name that the remainder has already?
    fn is_taken(&self, found: Option<usize>, call: &Call, name: &[u8]) -> bool
        requires { Held call.now.area.now call.now.cells.now self.now.rest self.now.count }
        ensures { result ≡ taken_by found self.now.next self.now.sources (held_names call.now.area.now call.now.cells.now self.now.rest self.now.count) name.now }
    {
        match found {
            Some(i) => i < self.next || self.is_named(i),
            None => self.in_rest(call, name),
        }
    }
}
