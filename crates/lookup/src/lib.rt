// Looking up a name (01, on `SymbolMap`): which parameter a call means by it, if any. A plain search stands in for the hash table.
// Reworked from starlark 0.14.2, src/collections/symbol/map.rs, Apache-2.0.
#![tactic(auto)]

ghost use Rattle.std.specs.Prelude.{◌≡◌, true, min, ◌-◌, ◌<◌, ◌≤◌, get_or};
ghost use Rattle.cells.specs.Text.{part_at};
ghost use Rattle.builder.specs.Params.{may_be_named};
ghost use Rattle.lookup.specs.Lookup.{fits_at, first_at, find_in, OneFits};

use builder::params::{CAPACITY, Parameters, may_be_named};
use builder::spec::ParametersSpec;
use cells::key::short_same;
use cells::text::part;

// SymbolMap::get_str, over a finished list.
#[tactic(auto, using(crate::proofs::LawsFind::find_whole))]
pub fn get_str(list: &ParametersSpec, name: &[u8]) -> Option<usize>
    ensures { result ≡ find_in list.now.area.now list.now.params name.now }
{
    search(list, 0, held(list.params.len), name)
}

// The same where no two parameters have this name, the text of a payload in the call's area, with a guess: the candidate at `near` is tried
// first. Calls mostly name parameters in the list's order, and then the one behind the last that was found is the one.
#[inline(always)]
pub fn find_near(list: &ParametersSpec, near: usize, call: &[u8], payload: u64) -> Option<usize>
    requires { OneFits list.now.area.now list.now.params (part_at call.now payload) }
    ensures { result ≡ find_in list.now.area.now list.now.params (part_at call.now payload) }
{
    if fits(list, near, call, payload) {
        return Some(near);
    }
    find_from(list, near, part(call, payload))
}

// Is the candidate at an index known by one comparison to have this name, the text of a payload in the call's area? No says nothing: a guess
// that is not recognised costs time and no more.
#[inline(always)]
#[tactic(auto, using(crate::proofs::LawsFind::fits_short), unfolding(crate::specs::Lookup::fits_at))]
fn fits(list: &ParametersSpec, at: usize, call: &[u8], payload: u64) -> bool
    ensures { result ≡ true → (at < min list.now.params.len 64) × (fits_at list.now.area.now list.now.params (part_at call.now payload) at ≡ true) }
{
    let params = &list.params;
    at < held(params.len)
        && nameable_at(params, at)
        && short_same(call, payload, list.area, params.names[at])
}

// Can the parameter at an index be named in a call?
fn nameable_at(params: &Parameters, at: usize) -> bool
    requires { at < 64 }
    ensures { result ≡ may_be_named (get_or params.now.codes at 0) (get_or params.now.styles at 0) }
{
    may_be_named(u64::from(params.codes[at]), u64::from(params.styles[at]))
}

// The same of a name that is lent, by the search: the candidates from `near` on first, and then those before it.
#[tactic(auto, using(crate::proofs::LawsFind::find_whole, crate::proofs::LawsFind::find_later, crate::proofs::LawsFind::find_earlier))]
pub fn find_from(list: &ParametersSpec, near: usize, name: &[u8]) -> Option<usize>
    requires { OneFits list.now.area.now list.now.params name.now }
    ensures { result ≡ find_in list.now.area.now list.now.params name.now }
{
    let count = held(list.params.len);
    if count <= near {
        return search(list, 0, count, name);
    }
    if let Some(at) = search(list, near, count, name) {
        return Some(at);
    }
    search(list, 0, near, name)
}

// The first candidate from `from` on, before `to`, that has this name. A length that differs drops most, and of the others the first byte that
// differs; one whose name does not lie inside the area fits nothing.
fn search(list: &ParametersSpec, from: usize, to: usize, name: &[u8]) -> Option<usize>
    requires { (from ≤ to) × (to ≤ 64) }
    ensures { result ≡ first_at (fits_at list.now.area.now list.now.params name.now) from (to - from) }
{
    let params = &list.params;
    let area = list.area;
    'candidates: for at in from..to {
        let size = (params.names[at] % 256) as usize;
        if name.len() != size {
            continue;
        }
        if !nameable_at(params, at) {
            continue;
        }
        let start = (params.names[at] / 256) as usize;
        if 65535 < start {
            continue;
        }
        if area.len() < start + size {
            continue;
        }
        for j in 0..size {
            if name[j] != area[start + j] {
                continue 'candidates;
            }
        }
        return Some(at);
    }
    None
}

// How many of `len` parameters the columns hold.
fn held(len: usize) -> usize
    ensures { result ≡ min len 64 }
{
    len.min(CAPACITY)
}
