// How a call ends, as text (01, sheets): an accepted call's lines, or a refusal alone.
ghost use Rattle.std.specs.Prelude.{Ok, ◌≡◌, List, ℕ, ◌+◌, ◌≤◌, length};
ghost use Rattle.rules.specs.Value.{Value};
ghost use Rattle.rules.specs.Answer.{Answer};
ghost use Rattle.rules.specs.CallRecord.{Named};
ghost use Rattle.rules.specs.Parameters.{Parameter};
ghost use Rattle.rules.specs.Collection.{outcome_of};
ghost use Rattle.rules.specs.SheetValue.{decimal};
ghost use Rattle.rules.specs.SheetOutput.{refusal_text, outcome_text};
ghost use Rattle.cells.specs.Out.{Put, Wrote};
ghost use Rattle.answers.specs.Answer.{refusal_number};
ghost use Rattle.sheet_output.specs.Outcome.{count_line, closing, accepted_shown, refused_cells, refused_shown, outcome_shown, Limits, OutcomeRoom, OutcomeReady};

use crate::line::{Bound, number_cell, text_cell};
use crate::parts::{Remainder, Sort, write_remainders, write_slots};
use answers::answer::{Counts, Refusal};
use answers::detail::name_of;
use builder::params::Parameters;
use builder::spec::ParametersSpec;
use cells::out::Cursor;

// How a call ends, from byte 0 on, and how long that is. `list` is the one that the call was bound against, `board` and `answer` are what
// collection left and answered.
pub fn write_outcome<'a>(
    list: &ParametersSpec<'a>,
    call: &'a [u8],
    board: &'a [u64],
    answer: Result<Counts, Refusal>,
    out: &mut [u8],
) -> usize
    requires { OutcomeRoom list.now answer out.old }
    ensures { (qs : List Parameter) (P : List Value) (N : List Named) (asked : Answer) (before : List ℕ) → OutcomeReady list.now.area.now call.now list.now board.now answer qs P N asked before → Put (outcome_text list.now.area.now call.now qs P N (outcome_of asked qs P N before)) 0 out.old out.new result }
{
    let bound = Bound {
        spec: list.area,
        call,
        board,
    };
    let mut output = Cursor::new(out);
    write_ending(&bound, list, answer, &mut output);
    output.at
}

// The same, by the answer alone.
fn write_ending(
    bound: &Bound,
    list: &ParametersSpec,
    answer: Result<Counts, Refusal>,
    output: &mut Cursor,
)
    requires limits { (c : Counts) → answer ≡ Ok c → Limits list.now.params c }
    requires room { output.old.at + 40960 ≤ length output.old.out.now }
    ensures { Wrote (outcome_shown bound.now.spec.now bound.now.call.now list.now.params bound.now.board.now answer) output.old output.new }
{
    match answer {
        Ok(counts) => write_accepted(bound, &list.params, counts, output),
        Err(Refusal::ExtraPositionalArg(n)) => refuse_count(23, n as u64, output),
        Err(refusal) => write_refused(bound, refusal, output),
    }
}

// The columns, the slots, the star remainder before the named one, and the two counts.
fn write_accepted(bound: &Bound, params: &Parameters, counts: Counts, output: &mut Cursor)
    requires { Limits params.now counts × (output.old.at + 40960 ≤ length output.old.out.now) }
    ensures { Wrote (accepted_shown bound.now.spec.now bound.now.call.now params.now bound.now.board.now counts) output.old output.new }
{
    let from = 2 * params.len;
    let star = Remainder {
        sort: Sort::Star,
        from,
        count: counts.star,
    };
    let named = Remainder {
        sort: Sort::Named,
        from: from + 2 * counts.star,
        count: counts.named,
    };
    output.write(b"slot,name,value\n");
    write_slots(bound, params, output);
    write_remainders(bound, star, named, output);
    write_closing(counts.taken, counts.defaulted, output);
}

fn write_closing(taken: usize, defaulted: usize, output: &mut Cursor)
    requires { output.old.at + 512 ≤ length output.old.out.now }
    ensures { Wrote (closing taken defaulted) output.old output.new }
{
    write_count(b"taken", taken, output);
    write_count(b"defaulted", defaulted, output);
}

fn write_count(word: &[u8], n: usize, output: &mut Cursor)
    requires { output.old.at + length word.now + 64 ≤ length output.old.out.now }
    ensures { Wrote (count_line word.now n) output.old output.new }
{
    text_cell(word, b",", output);
    number_cell(n as u64, b",\n", output);
}

// A refusal with the name that goes with it, if one does.
fn write_refused(bound: &Bound, refusal: Refusal, output: &mut Cursor)
    requires { output.old.at + 512 ≤ length output.old.out.now }
    ensures { Wrote (refused_shown bound.now.spec.now bound.now.call.now refusal) output.old output.new }
{
    let answer: Result<Counts, Refusal> = Err(refusal);
    let name = name_of(bound.spec, bound.call, answer);
    refuse(number_of(refusal), name, output);
}

// `refused`, the number and the detail's bytes.
pub fn write_refusal(number: u64, detail: &[u8], out: &mut [u8]) -> usize
    requires { length detail.now + 64 ≤ length out.old }
    ensures { Put (refusal_text number detail.now) 0 out.old out.new result }
{
    let mut output = Cursor::new(out);
    refuse(number, detail, &mut output);
    output.at
}

fn refuse(number: u64, detail: &[u8], output: &mut Cursor)
    requires { output.old.at + length detail.now + 64 ≤ length output.old.out.now }
    ensures { Wrote (refusal_text number detail.now) output.old output.new }
{
    write_number(number, output);
    text_cell(detail, b"\n", output);
}

// The same where the detail is a number: how many values are left over (23), or the line of a sheet (30).
pub fn write_refused_count(number: u64, n: u64, out: &mut [u8]) -> usize
    requires { 64 ≤ length out.old }
    ensures { Put (refusal_text number (decimal n)) 0 out.old out.new result }
{
    let mut output = Cursor::new(out);
    refuse_count(number, n, &mut output);
    output.at
}

fn refuse_count(number: u64, n: u64, output: &mut Cursor)
    requires { output.old.at + 64 ≤ length output.old.out.now }
    ensures { Wrote (refusal_text number (decimal n)) output.old output.new }
{
    write_number(number, output);
    number_cell(n, b"\n", output);
}

// The first two cells of a refusal, which stands alone in the output.
fn write_number(number: u64, output: &mut Cursor)
    requires { output.old.at + 64 ≤ length output.old.out.now }
    ensures { Wrote (refused_cells number) output.old output.new }
{
    output.write(b"refused,");
    number_cell(number, b",", output);
}

fn number_of(refusal: Refusal) -> u64
    ensures { result ≡ refusal_number refusal }
{
    match refusal {
        Refusal::Record(question) => question.number(),
        Refusal::ArgsArrayIsNotIterable => 15,
        Refusal::RepeatedParameter(_) => 16,
        Refusal::KwArgsIsNotDict => 17,
        Refusal::ArgsValueIsNotString => 18,
        Refusal::RepeatedArg(_) => 19,
        Refusal::MissingPositionalOnly(_) => 20,
        Refusal::Missing(_) => 21,
        Refusal::MissingNamedOnly(_) => 22,
        Refusal::ExtraPositionalArg(_) => 23,
        Refusal::ExtraNamedArg(_, _) => 24,
    }
}
