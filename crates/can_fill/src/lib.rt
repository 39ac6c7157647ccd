// Can-fill (01, collector and can-fill): whether a call fills a parameter list, by how many positionals and which names are written.
// Reworked from starlark 0.14.2, src/eval/runtime/params/spec.rs (can_fill_with_args_impl), Apache-2.0.
#![tactic(auto)]

ghost use Rattle.std.specs.Prelude.{◌≡◌, true};
ghost use Rattle.rules.specs.CanFill.{can_fill, fillable};
ghost use Rattle.builder.specs.Params.{parameters_in};
ghost use Rattle.calls.specs.Head.{head_of};
ghost use Rattle.can_fill.specs.CanFill.{filling_in, written_in, free_for, named_after, FillReady, NamesReady, NamesFilled};

use builder::build;
use builder::spec::ParametersSpec;
use calls::ask_form;
use calls::head::{Call, PAIR, named_from};
use cells::question::Question;
use cells::record::Record;
use findings::found::first_missing;
use findings::resolve::found_at;

// The records as they are lent, of any cells and bytes: 1 to 7 are put to the list, then 9 to 11 to the call; yes or no where none refuses.
pub fn can_fill_with_args(spec: &Record, call: &Record) -> Result<bool, Question>
    ensures { filling_in result ≡ fillable 64 64 spec.now.cells.now spec.now.area.now call.now.cells.now call.now.area.now }
{
    let list = build(spec)?;
    ask_form(call)?;
    Ok(can_fill(&list, &Call::new(call)))
}

// A call that passes 9 to 11 against a list that passes 1 to 7: surplus positionals need *args, each name a slot of its own, and a required
// slot a position or a name.
fn can_fill(list: &ParametersSpec, call: &Call) -> bool
    requires { FillReady list.now.area.now list.now call.now.cells.now call.now.area.now (head_of call.now.head) }
    ensures { result ≡ can_fill (parameters_in list.now.area.now list.now.params) call.now.head.p (written_in call.now.area.now call.now.cells.now (head_of call.now.head)) }
{
    let indices = list.indices;
    let p = call.head.p;
    if indices.num_positional < p && indices.args.is_none() {
        return false;
    }
    let next = p.min(indices.num_positional);
    let mut named: [usize; 64] = [0; 64];
    fill_names(list, call, next, &mut named) && first_missing(&list.params, &named, next).is_none()
}

// Each written name fills its slot, in their order, up to the first that cannot. `named` is 1 where a name fills a slot: a slot below
// `next` is filled by position, and `named` stays 0 there. Names mostly come in the list's order, so each is looked for first as far behind
// `next` as there are names before it.
fn fill_names(list: &ParametersSpec, call: &Call, next: usize, named: &mut [usize; 64]) -> bool
    requires { NamesReady list.now.area.now list.now call.now.cells.now call.now.area.now (head_of call.now.head) next named.old }
    ensures { NamesFilled (parameters_in list.now.area.now list.now.params) call.now.head.p (written_in call.now.area.now call.now.cells.now (head_of call.now.head)) named.new result }
{
    let from = named_from(call.head);
    let kwargs = list.indices.kwargs.is_some();
    for k in 0..call.head.n {
        let found = found_at(list, call, from + PAIR * k, next + k);
        if !fill(found, kwargs, next, named) {
            return false;
        }
    }
    true
}

// One name fills the slot that is found, unless that is filled already; one that is not found needs **kwargs, and may come again.
fn fill(found: Option<usize>, kwargs: bool, next: usize, named: &mut [usize; 64]) -> bool
    ensures free { result ≡ free_for found kwargs next named.old }
    ensures named { result ≡ true → named.new ≡ named_after found named.old }
{
    match found {
        Some(i) => {
            if i < next || named.get(i) == Some(&1) {
                return false;
            }
            if i < named.len() {
                named[i] = 1;
            }
            true
        }
        None => kwargs,
    }
}
