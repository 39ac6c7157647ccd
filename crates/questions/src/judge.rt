// Questions 15 to 24 (01, binding; 02, §4), asked in order before anything is written.
// Reworked from starlark 0.14.2, src/eval/runtime/params/spec.rs (collect_slow), Apache-2.0.
//
//     def f(a, /, b, *args, k, **kwargs)
//
// 15 the star can be iterated; 16 no slot is filled by position and by a written name; 17 the double star is a dictionary; 18 and 19
// entry by entry: a text, and free; 24 names of no parameter have **kwargs to go to; 20 to 22 no required slot is empty; 23 what is left over by
// position has *args to go to. The Rust asks 24 last: an unknown name is told first here, since it may be a missing one misspelled.
ghost use Rattle.std.specs.Prelude.{◌≡◌, ◌≤◌};
ghost use Rattle.calls.specs.Head.{head_of, Few};
ghost use Rattle.questions.specs.Judge.{lost_to, missing_as, star_as, repeats_as, required_as, surplus_as, unknown_as, placed_as, PlacedReady};
ghost use Rattle.builder.specs.Spec.{index_of};

use answers::answer::Refusal;
use builder::params::Parameters;
use builder::spec::{DefParamIndices, ParametersSpec};
use calls::head::{Call, Head};
use cells::record::pair_at;
use findings::found::first_missing;
use findings::resolve::Resolution;

// The refusal for a required parameter that is given nothing, by how it could have been given.
#[tactic(auto, using(crate::proofs::LawsJudge::missing_other))]
pub fn missing(style: u8, name: u64) -> Refusal
    ensures { result ≡ missing_as style name }
{
    match style {
        0 => Refusal::MissingPositionalOnly(name),
        1 => Refusal::Missing(name),
        _ => Refusal::MissingNamedOnly(name),
    }
}

// Is there more than `room`, and no parameter to take what is left over?
fn lost(count: usize, room: usize, taker: Option<usize>) -> bool
    ensures { result ≡ lost_to count room (index_of taker) }
{
    room < count && taker.is_none()
}

// 15: the star can be iterated.
#[tactic(auto, unfolding(crate::specs::Judge::star_as))]
pub(crate) fn ask_star(h: Head) -> Result<(), Refusal>
    ensures { result ≡ star_as (head_of h) }
{
    if h.star_kind == 2 {
        return Err(Refusal::ArgsArrayIsNotIterable);
    }
    Ok(())
}

// 16: no slot is filled by position and by a written name.
#[tactic(auto, using(crate::proofs::LawsJudge::named_within), unfolding(crate::specs::Judge::repeats_as))]
pub(crate) fn ask_repeats(params: &Parameters, resolved: &Resolution) -> Result<(), Refusal>
    requires { resolved.now.next ≤ 64 }
    ensures { result ≡ repeats_as params.now resolved.now.next resolved.now.sources }
{
    match resolved.first_named() {
        Some(i) => Err(Refusal::RepeatedParameter(params.names[i])),
        None => Ok(()),
    }
}

// 20 to 24, of names that are resolved: what is unknown, what is missing, what is left over.
#[tactic(auto, unfolding(crate::specs::Judge::placed_as))]
pub fn ask_placed(list: &ParametersSpec, call: &Call, resolved: &Resolution) -> Result<(), Refusal>
    requires { PlacedReady list.now (head_of call.now.head) }
    ensures { result ≡ placed_as list.now call.now.cells.now (head_of call.now.head) resolved.now.next resolved.now.sources resolved.now.rest resolved.now.count }
{
    ask_unknown(list.indices, call.cells, resolved)?;
    ask_required(&list.params, resolved)?;
    ask_surplus(list.indices, call.head)
}

// 24: names of no parameter have **kwargs to go to.
#[tactic(auto, unfolding(crate::specs::Judge::unknown_as))]
fn ask_unknown(
    indices: DefParamIndices,
    cells: &[u64],
    resolved: &Resolution,
) -> Result<(), Refusal>
    ensures { result ≡ unknown_as indices cells.now resolved.now.rest resolved.now.count }
{
    let count = resolved.count;
    if lost(count, 0, indices.kwargs) {
        let key = pair_at(cells, resolved.rest[0]);
        return Err(Refusal::ExtraNamedArg(count, key.payload));
    }
    Ok(())
}

// 20 to 22: each required parameter is given something.
#[tactic(auto, using(crate::proofs::LawsJudge::missing_within), unfolding(crate::specs::Judge::required_as))]
fn ask_required(params: &Parameters, resolved: &Resolution) -> Result<(), Refusal>
    requires { params.now.len ≤ 64 }
    ensures { result ≡ required_as params.now resolved.now.next resolved.now.sources }
{
    match first_missing(params, &resolved.sources, resolved.next) {
        Some(i) => Err(missing(params.styles[i], params.names[i])),
        None => Ok(()),
    }
}

// 23: what position gives past the positional parameters has *args to go to.
#[tactic(auto, unfolding(crate::specs::Judge::surplus_as))]
fn ask_surplus(indices: DefParamIndices, h: Head) -> Result<(), Refusal>
    requires { Few 64 (head_of h) }
    ensures { result ≡ surplus_as indices (head_of h) }
{
    let positional = indices.num_positional;
    let total = h.p + h.s;
    if lost(total, positional, indices.args) {
        return Err(Refusal::ExtraPositionalArg(total - positional));
    }
    Ok(())
}
