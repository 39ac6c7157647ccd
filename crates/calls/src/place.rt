// Where the values of P and the pairs of N stand in a call record (01, placement: P is the written positionals and then the
// items of the star, N the written names and then the entries).
ghost use Rattle.std.specs.Prelude.{◌≡◌, ◌≤◌};
ghost use Rattle.calls.specs.Head.{head_of};
ghost use Rattle.calls.specs.Places.{in_runs, position_at, named_at};

use crate::head::{HEAD, Head, PAIR, VALUE, entries_from, few, items_from, named_from};

// The index of the cell where value k of P stands; 0 where P has no such value or a count is too large.
pub fn position_at(h: Head, k: usize) -> usize
    ensures { result ≡ position_at 64 (head_of h) k }
{
    if !few(h) {
        return 0;
    }
    in_runs(VALUE, HEAD, h.p, items_from(h), h.s, k)
}

// The index of the cell where pair k of N stands, written or entry; 0 where there is no such pair or a count is too large.
pub fn named_at(h: Head, k: usize) -> usize
    ensures { result ≡ named_at 64 (head_of h) k }
{
    if !few(h) {
        return 0;
    }
    in_runs(PAIR, named_from(h), h.n, entries_from(h), h.d, k)
}

// Things of `width` cells in two runs, `a` of them from `first` on and then `b` from `second` on: where number k stands.
fn in_runs(width: usize, first: usize, a: usize, second: usize, b: usize, k: usize) -> usize
    requires { (width ≤ 4) × (first ≤ 1000) × (a ≤ 64) × (second ≤ 1000) × (b ≤ 64) }
    ensures { result ≡ in_runs width first a second b k }
{
    if k < a {
        return first + width * k;
    }
    if k < a + b {
        return second + width * (k - a);
    }
    0
}
