// The call record of a cut (01, cells, texts and records): the fronts of P and N written out, their rests behind the stars.
ghost use Rattle.std.specs.Prelude.{◌≡◌, ◌≤◌, length};
ghost use Rattle.rules.specs.Cells.{over};
ghost use Rattle.rules.specs.CallRecord.{encode_call};
ghost use Rattle.rules.specs.Demand3.{cut_record};
ghost use Rattle.cuts.specs.Record.{cut_of, values_of, pairs_of, kind_of, head_cells, Fits};

use calls::head::{HEAD, Head, PAIR, VALUE};
use calls::values::copy_values;

// How many of P and of N are written out, and whether a rest that is empty is given all the same.
#[derive(Clone, Copy, Debug, PartialEq, Eq)]
pub struct Cut {
    pub at_p: usize,
    pub at_n: usize,
    pub list_given: bool,
    pub dictionary_given: bool,
}

// The most cells that 64 values and 64 pairs take, whichever way they are cut.
pub const CELLS: usize = 390;

// The record of a cut, stored from cell 0 on: behind the head the fronts of P and N, then what is left of each.
pub(crate) fn write_cut(positionals: &[u64], named: &[u64], cut: Cut, out: &mut [u64])
    requires { Fits positionals.now named.now (cut_of cut) × (390 ≤ length out.old) }
    ensures { out.new ≡ over (encode_call (cut_record (values_of positionals.now) (pairs_of named.now) (cut_of cut))) out.old }
{
    let front_p = VALUE * cut.at_p;
    let front_n = PAIR * cut.at_n;
    let s = positionals.len() / VALUE - cut.at_p;
    let d = named.len() / PAIR - cut.at_n;
    let named_at = HEAD + front_p;
    let items_at = named_at + front_n;
    let entries_at = items_at + VALUE * s;
    // a pair is copied as two values
    let front = 2 * cut.at_n;
    let rest = 2 * d;
    write_head(cut, s, d, out);
    copy_values(positionals, 0, cut.at_p, HEAD, out);
    copy_values(named, 0, front, named_at, out);
    copy_values(positionals, front_p, s, items_at, out);
    copy_values(named, front_n, rest, entries_at, out);
}

// The six cells of a cut that leaves `s` values and `d` pairs for the stars.
#[tactic(auto, using(cells::proofs::LawsOut::stored_first))]
fn write_head(cut: Cut, s: usize, d: usize, out: &mut [u64])
    requires { 6 ≤ length out.old }
    ensures { out.new ≡ over (head_cells (cut_of cut) s d) out.old }
{
    let head = Head {
        p: cut.at_p,
        n: cut.at_n,
        star_kind: rest_kind(cut.list_given, s),
        s,
        double_kind: rest_kind(cut.dictionary_given, d),
        d,
    };
    head.write(out);
}

// The kind of a star with `count` things in it: only an empty one can be left out.
fn rest_kind(given: bool, count: usize) -> u64
    ensures { result ≡ kind_of given count }
{
    (given || 0 < count) as u64
}
