// Which input is well formed (01, sheets and the program bind; 30 and its line): for any bytes the verdict, and where the two sheets stand.
#![tactic(auto)]

ghost use Rattle.std.specs.Prelude.{◌≡◌};
ghost use Rattle.sheet_judge.specs.Judged.{places_of, Judging};

use call::{CallPlaces, read_call};
use calls::head::Head;
use parameters::{ParameterPlaces, read_parameters};
use sheet_lines::header::Columns;
use sheet_lines::lines::Lines;

pub mod call;
pub mod counts;
pub mod parameters;
pub mod row;

// The bytes that an input may have.
const LONGEST: usize = 16384;

// Where the two sheets stand.
#[derive(Clone, Copy, Debug, PartialEq, Eq)]
pub struct Places {
    pub parameters: Columns,
    // Where the row of `def` begins.
    pub parameter_rows: usize,
    // How many rows the parameter sheet has, that of `def` among them.
    pub rows: usize,
    pub call: Columns,
    // Where the first row of the call sheet begins.
    pub call_rows: usize,
    pub counts: Head,
}

// The line that breaks a rule, counted from 1; 0 of an input that is too long.
#[derive(Clone, Copy, Debug, PartialEq, Eq)]
pub struct BadLine(pub usize);

// The length is asked before any line. Behind the header and the rows of the parameter sheet come the blank line and then the call sheet's
// header, so that this is line `rows` and 3.
pub fn judge_input(input: &[u8]) -> Result<Places, BadLine>
    ensures { Judging input.now result }
{
    if LONGEST < input.len() {
        return Err(BadLine(0));
    }
    let p = read_parameters(input)?;
    let call = Lines { input, at: p.next };
    let c = read_call(call, p.rows + 3)?;
    Ok(places_of(p, c))
}

fn places_of(p: ParameterPlaces, c: CallPlaces) -> Places
    ensures { result ≡ places_of p c }
{
    Places {
        parameters: p.columns,
        parameter_rows: p.from,
        rows: p.rows,
        call: c.columns,
        call_rows: c.from,
        counts: c.counts,
    }
}
