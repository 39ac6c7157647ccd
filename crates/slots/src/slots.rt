// The slots of a call, what is left over, and their cells on the board (01, placement and board).
// Reworked from starlark 0.14.2, src/eval/runtime/params/spec.rs (collect_slow), Apache-2.0.
ghost use Rattle.std.specs.Prelude.{◌≡◌, cond, ◌<◌, ◌≤◌, length};
ghost use Rattle.rules.specs.Placement.{is_taken, is_defaulted};
ghost use Rattle.rules.specs.Board.{slot_value};
ghost use Rattle.cells.specs.Value.{pair_of};
ghost use Rattle.calls.specs.Head.{head_of};
ghost use Rattle.slots.specs.Slots.{slot_in, unfilled_as, slot_at, slots_of, Filling};

use builder::params::Parameters;
use calls::head::Call;
use calls::place::position_at;
use cells::out::put_inside;
use cells::record::pair_at;
use cells::value::Pair;
use findings::resolve::Resolution;

// What a parameter's slot holds: nothing, a value of the call, the parameter's default, or a remainder's count.
#[derive(Clone, Copy, Debug, PartialEq, Eq)]
pub enum Slot {
    Empty,
    Taken(Pair),
    Default(Pair),
    Args,
    KWargs,
}

// Slot k: a value of P below `next`, or the value that a name gives it, or what its code says.
#[tactic(auto, using(crate::proofs::LawsSlots::slot_below, crate::proofs::LawsSlots::slot_named, crate::proofs::LawsSlots::slot_unfilled))]
pub fn slot_at(params: &Parameters, call: &Call, resolved: &Resolution, k: usize) -> Slot
    requires { k < 64 }
    ensures { slot_in result ≡ slot_at params.now resolved.now.sources call.now.cells.now (head_of call.now.head) resolved.now.next k }
{
    if k < resolved.next {
        return Slot::Taken(pair_at(call.cells, position_at(call.head, k)));
    }
    let source = resolved.sources[k];
    if source != 0 {
        return Slot::Taken(pair_at(call.cells, source));
    }
    let default = Pair::new(params.default_kinds[k], params.default_payloads[k]);
    Slot::unfilled(params.codes[k], default)
}

impl Slot {
    // The slot of a parameter that is given nothing, by its code.
    pub fn unfilled(code: u8, default: Pair) -> Slot
        ensures { slot_in result ≡ unfilled_as code (pair_of default) }
    {
        match code {
            1 | 2 => Slot::Empty,
            3 => Slot::Default(default),
            6 => Slot::Args,
            _ => Slot::KWargs,
        }
    }

    // Its two cells, where the remainders have `star` and `named` elements.
    #[tactic(auto, unfolding(rules::specs::Value::no_value))]
    pub fn pair(self, star: usize, named: usize) -> Pair
        ensures { pair_of result ≡ slot_value (slot_in self star named) }
    {
        match self {
            Slot::Empty => Pair::new(0, 0),
            Slot::Taken(p) | Slot::Default(p) => p,
            Slot::Args => Pair::new(8, star as u64),
            Slot::KWargs => Pair::new(9, named as u64),
        }
    }

    // 1 if it holds a value of the call, else 0.
    pub fn taken(self) -> usize
        ensures { result ≡ cond (is_taken (slot_in self 0 0)) 1 0 }
    {
        usize::from(matches!(self, Slot::Taken(_)))
    }

    // 1 if it holds a default, else 0.
    pub fn defaulted(self) -> usize
        ensures { result ≡ cond (is_defaulted (slot_in self 0 0)) 1 0 }
    {
        usize::from(matches!(self, Slot::Default(_)))
    }
}

// How many slots hold a value of the call, and how many a default.
#[derive(Clone, Copy, Debug, PartialEq, Eq)]
pub struct Filled {
    pub taken: usize,
    pub defaulted: usize,
}

// The cells of the list's slots, from cell 0 of the board on, where the star remainder has `star` elements.
pub fn write_slots(
    params: &Parameters,
    call: &Call,
    resolved: &Resolution,
    star: usize,
    board: &mut [u64],
) -> Filled
    requires { (params.now.len ≤ 64) × (128 ≤ length board.old) }
    ensures { Filling (slots_of params.now resolved.now.sources call.now.cells.now (head_of call.now.head) resolved.now.next star resolved.now.count params.now.len) board.old board.new result }
{
    let mut taken = 0;
    let mut defaulted = 0;
    for k in 0..params.len {
        let slot = slot_at(params, call, resolved, k);
        taken += slot.taken();
        defaulted += slot.defaulted();
        put_inside(board, 2 * k, slot.pair(star, resolved.count));
    }
    Filled { taken, defaulted }
}
