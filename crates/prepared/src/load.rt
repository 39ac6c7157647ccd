// A prepared list as binding reads it: counts and indices of the rows, and the rows in the builder's columns, each copied once. Rows that are
// right are asked for before (`check`); of these two only loading needs that, for codes and styles that a byte holds.
ghost use Rattle.std.specs.Prelude.{List, ℕ, ◌+◌, ◌*◌, ◌≤◌, length};
ghost use Rattle.cells.specs.Listed.{listed};
ghost use Rattle.prepared.specs.Rows.{param_at, Whole, Narrow};
ghost use Rattle.prepared.specs.Load.{IndicesOf, IsLoaded};

use crate::row::{DEFAULT_KIND, DEFAULT_PAYLOAD, FRONT, NAME, ROW, STYLE};
use builder::params::Parameters;
use builder::spec::DefParamIndices;

// The rows, stored where the list stands that they are loaded for: a list is 1.7 KB, and one that is answered would be copied.
pub(crate) fn load(cells: &[u64], params: &mut Parameters)
    requires { Whole cells.now × Narrow cells.now }
    ensures { IsLoaded cells.now params.new }
{
    let n = cells[0] as usize;
    params.len = n;
    for i in 0..n {
        let at = FRONT + ROW * i;
        params.codes[i] = cells[at] as u8;
        params.styles[i] = cells[at + STYLE] as u8;
        params.names[i] = cells[at + NAME];
        params.default_kinds[i] = cells[at + DEFAULT_KIND];
        params.default_payloads[i] = cells[at + DEFAULT_PAYLOAD];
    }
}

// How many of the n rows are positional-only and how many positional, and where `*args` and `**kwargs` stand. By the builder's reading, a code
// that adds no parameter is that of `**kwargs`.
pub(crate) fn indices_in(cells: &[u64], n: usize) -> DefParamIndices
    requires { (n ≤ 64) × (2 + 6 * n ≤ length cells.now) }
    ensures { (area : List ℕ) → IndicesOf (listed (param_at area cells.now) 0 n) result }
{
    let mut only = 0;
    let mut positional = 0;
    let mut args = None;
    let mut kwargs = None;
    for i in 0..n {
        let at = FRONT + ROW * i;
        let style = cells[at + STYLE];
        match cells[at] {
            1..=3 => {
                only += (style < 1) as usize;
                positional += (style < 2) as usize;
            }
            6 => args = args.or(Some(i)),
            _ => kwargs = kwargs.or(Some(i)),
        }
    }
    DefParamIndices {
        num_positional_only: only,
        num_positional: positional,
        args,
        kwargs,
    }
}
