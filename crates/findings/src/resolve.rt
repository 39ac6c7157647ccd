// Each name of a call resolved once (01, collector): for each parameter the cell of the value that a name gives it, and the pairs that
// name no parameter, in their order. They answer 13 while they are made, and 16, 19, 24 and placement work on them.
// Reworked from starlark 0.14.2, src/eval/runtime/params/spec.rs (collect_slow), Apache-2.0.
ghost use Rattle.std.specs.Prelude.{◌≡◌, not, ◌<◌, ◌^◌, eqb, get_or};
ghost use Rattle.rules.specs.Text.{among};
ghost use Rattle.rules.specs.Binding.{texts_of};
ghost use Rattle.cells.specs.Text.{part_at};
ghost use Rattle.cells.specs.Record.{pair_at};
ghost use Rattle.findings.specs.Resolve.{OneEach, found_in, sources_after, rest_after, count_after, with_count, NamesLent, NamesResolved};
ghost use Rattle.findings.specs.Entries.{Held, held_names, repeats_by};

use builder::spec::ParametersSpec;
use calls::head::{Call, PAIR};
use cells::question::Question;
use cells::record::pair_at;
use cells::text::{part, same};
use lookup::find_near;

// The pairs of N, at most 64 written and 64 entries.
pub const NAMED: usize = 128;

// What the arguments of a call are resolved to.
#[derive(Clone, Copy)]
pub struct Resolution {
    // For each parameter the cell of the value that a name gives it, 0 where none does: cell 0 of a call record is a count, so no value stands
    // there.
    pub sources: [usize; 64],
    // The pairs that name no parameter, in their order ..
    pub rest: [usize; NAMED],
    // .. and how many they are.
    pub count: usize,
    // How many slots are filled by position.
    pub next: usize,
}

impl Resolution {
    // The value of a pair fills the slot that is found, or the pair joins the remainder.
    #[tactic(auto, using(std::proofs::lemmas::List::set_past))]
    pub fn enter(&mut self, found: Option<usize>, pair: usize)
        requires { (pair < 2 ^ 32) × (self.old.count < 128) }
        ensures sources { self.new.sources ≡ sources_after found pair self.old.sources }
        ensures rest { self.new.rest ≡ rest_after found pair self.old.count self.old.rest }
        ensures count { self.new.count ≡ count_after found self.old.count }
        ensures next { self.new.next ≡ self.old.next }
    {
        match found {
            Some(i) => {
                if i < self.sources.len() {
                    self.sources[i] = pair + 2;
                }
            }
            None => {
                self.rest[self.count] = pair;
                self.count += 1;
            }
        }
    }

    // Is the name at a pair one of those that are resolved? One that is found has filled its slot; one that is not is in the remainder.
    fn repeats(&self, found: Option<usize>, call: &Call, pair: usize) -> bool
        requires { Held call.now.area.now call.now.cells.now self.now.rest self.now.count }
        ensures { result ≡ repeats_by found self.now.sources (held_names call.now.area.now call.now.cells.now self.now.rest self.now.count) (part_at call.now.area.now (pair_at call.now.cells.now pair).payload) }
    {
        match found {
            Some(i) => self.is_named(i),
            None => self.in_rest(call, part(call.area, pair_at(call.cells, pair).payload)),
        }
    }

    // Does a name fill the slot at an index?
    pub(crate) fn is_named(&self, i: usize) -> bool
        ensures { result ≡ not (eqb (get_or self.now.sources i 0) 0) }
    {
        self.sources.get(i).is_some_and(|source| *source != 0)
    }

    // Does one of the pairs of the remainder have this name?
    pub fn in_rest(&self, call: &Call, name: &[u8]) -> bool
        requires { Held call.now.area.now call.now.cells.now self.now.rest self.now.count }
        ensures { result ≡ among name.now (texts_of (held_names call.now.area.now call.now.cells.now self.now.rest self.now.count)) }
    {
        self.rest[..self.count].iter().any(|pair| {
            same(name, part(call.area, pair_at(call.cells, *pair).payload))
        })
    }
}

// The parameter that the pair at a cell names. The one at `near` is tried first. It is made part of the loops over written names: as a call of
// its own it took some fifty instructions a name more.
#[inline(always)]
#[tactic(auto, unfolding(crate::specs::Resolve::found_in))]
pub fn found_at(list: &ParametersSpec, call: &Call, pair: usize, near: usize) -> Option<usize>
    requires { OneEach list.now.area.now list.now.params }
    ensures { result ≡ found_in list.now.area.now list.now.params call.now.area.now call.now.cells.now pair }
{
    find_near(list, near, call.area, pair_at(call.cells, pair).payload)
}

// Where to look first for the next name: behind the parameter that was found, or where it was looked for this time.
pub fn behind(found: Option<usize>, near: usize) -> usize {
    match found {
        Some(i) => i.saturating_add(1),
        None => near,
    }
}

// The written names, up to the first that stands twice (13). The first is looked for first at the slot behind those that are filled by position.
pub fn resolve_names(
    list: &ParametersSpec,
    call: &Call,
    from: usize,
    n: usize,
    resolved: &mut Resolution,
) -> Result<(), Question>
    requires { NamesLent list.now.area.now list.now call.now.cells.now call.now.area.now from n resolved.old.sources resolved.old.rest }
    ensures names { NamesResolved list.now.area.now list.now call.now.cells.now call.now.area.now from n resolved.old.sources resolved.old.rest resolved.new.sources resolved.new.rest (with_count result resolved.new.count) }
    ensures next { resolved.new.next ≡ resolved.old.next }
{
    let mut guess = resolved.next;
    resolved.count = 0; // whatever it counted before
    for k in 0..n {
        let pair = from + PAIR * k;
        let found = found_at(list, call, pair, guess);
        if resolved.repeats(found, call, pair) {
            return Err(Question::RepeatedName);
        }
        guess = behind(found, guess);
        resolved.enter(found, pair);
    }
    Ok(())
}
