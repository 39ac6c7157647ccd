// Questions 15 to 24 put to a call (01, binding), against a prepared list: each entry is resolved on the way, after the written names, and
// nothing is written but what it is resolved to. The order is that of judge.rt.
// Reworked from starlark 0.14.2, src/eval/runtime/params/spec.rs (collect_slow), Apache-2.0.
ghost use Rattle.std.specs.Prelude.{◌≡◌};
ghost use Rattle.rules.specs.Binding.{ask_binding};
ghost use Rattle.calls.specs.Head.{head_of};
ghost use Rattle.findings.specs.Resolve.{with_count};
ghost use Rattle.questions.specs.Questions.{ask_after_names, JudgeReady, Judges};

use crate::judge::{ask_placed, ask_repeats, ask_star};
use answers::answer::Refusal;
use builder::spec::ParametersSpec;
use calls::head::Call;
use findings::entries::resolve_entries;
use findings::resolve::Resolution;

// All of them, of a call whose written names are resolved. Where nothing is against the call, its entries are resolved too in the end.
pub fn judge(list: &ParametersSpec, call: &Call, resolved: &mut Resolution) -> Result<(), Refusal>
    requires { JudgeReady list.now.area.now list.now call.now.cells.now call.now.area.now (head_of call.now.head) resolved.old.next resolved.old.sources resolved.old.rest resolved.old.count }
    ensures judged { Judges list.now.area.now list.now call.now.cells.now call.now.area.now ask_binding resolved.new.sources resolved.new.rest (with_count result resolved.new.count) }
    ensures next { resolved.new.next ≡ resolved.old.next }
{
    ask_star(call.head)?;
    ask_repeats(&list.params, resolved)?;
    after_names(list, call, resolved)
}

// 17 to 24, of a call whose written names are resolved. Entries are looked for first behind as many parameters as there are written names.
fn after_names(list: &ParametersSpec, call: &Call, resolved: &mut Resolution) -> Result<(), Refusal>
    requires { JudgeReady list.now.area.now list.now call.now.cells.now call.now.area.now (head_of call.now.head) resolved.old.next resolved.old.sources resolved.old.rest resolved.old.count }
    ensures judged { Judges list.now.area.now list.now call.now.cells.now call.now.area.now ask_after_names resolved.new.sources resolved.new.rest (with_count result resolved.new.count) }
    ensures next { resolved.new.next ≡ resolved.old.next }
{
    if call.head.double_kind == 2 {
        return Err(Refusal::KwArgsIsNotDict);
    }
    let near = resolved.next + call.head.n;
    resolve_entries(list, call, near, resolved)?;
    ask_placed(list, call, resolved)
}
