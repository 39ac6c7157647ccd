// The library's functions for C and Rust (include/liuwdom.h says what each takes and answers). None asks anything of its caller: cells and
// bytes may hold anything, every refusal leaves boards and outputs as they were, and the answer's eight cells are written in every case.
#![tactic(auto)]

ghost use Rattle.std.specs.Prelude.{◌≡◌};
ghost use Rattle.rules.specs.Collection.{collection, board_left};
ghost use Rattle.rules.specs.CanFill.{fillable};
ghost use Rattle.rules.specs.Accessors as rules;
ghost use Rattle.rules.specs.Printed as list;
ghost use Rattle.rules.specs.ParameterQuestions.{list_of};
ghost use Rattle.rules.specs.Reader.{read_needed, read_optional, at_end, left_at, position_after};
ghost use Rattle.rules.specs.SheetOutput as sheet;
ghost use Rattle.rules.specs.ParameterRecord.{encode_parameters};
ghost use Rattle.rules.specs.CallRecord.{encode_call};
ghost use Rattle.rules.specs.SheetRecords.{sheets_in};
ghost use Rattle.rules.specs.Window as runs;
ghost use Rattle.sheets.specs.Read.{reading, left_by};
ghost use Rattle.prepared.specs.Prepared.{bound_prepared};
ghost use Rattle.liuwdom.specs.Answer.{Says, outcome_answer, preparing_answer, preparing_left, filling_answer, access_answer, lookup_answer, read_answer, bound_answer, reading_answer, window_answer};

use accessors::len::len;
use accessors::names_map::names_map;
use accessors::no_named_args::no_named_args;
use accessors::optional::{optional, positional};
use accessors::positions::positions;
use answer::{
    accessed, bound, collected, exceeded, filled, found, prepared, prepared_bound, printed, read,
    refused, sheets_read,
};
use builder::build;
use can_fill::can_fill_with_args;
use cells::record::Record;
use collector::collect::collect;
use lookup::get_str;
use prepared::{bind_prepared, prepare};
use printer::parameters_str;
use reader::{read_is_eof, read_next, read_next_opt};
use sheets::{bind, read_sheets};
use window::window;

pub mod answer;

// Collection of a call record against a parameter record, into a board.
#[unsafe(no_mangle)]
pub extern "C" fn liuwdom_collect(
    spec_cells: &[u64],
    spec: &[u8],
    call_cells: &[u64],
    call: &[u8],
    board: &mut [u64],
    answer: &mut [u64; 8],
) -> u64
    ensures answer { Says (outcome_answer (collection 64 64 spec_cells.now spec.now call_cells.now call.now board.old)) answer.new result }
    ensures board { board.new ≡ board_left (collection 64 64 spec_cells.now spec.now call_cells.now call.now board.old) board.old }
{
    let spec = Record {
        cells: spec_cells,
        area: spec,
    };
    let call = Record {
        cells: call_cells,
        area: call,
    };
    collected(collect(&spec, &call, board)).write(answer)
}

// The list of a parameter record, laid out in lent cells for many calls.
#[unsafe(no_mangle)]
pub extern "C" fn liuwdom_prepare(
    spec_cells: &[u64],
    spec: &[u8],
    out: &mut [u64],
    answer: &mut [u64; 8],
) -> u64
    ensures answer { Says (preparing_answer spec_cells.now spec.now out.old) answer.new result }
    ensures output { out.new ≡ preparing_left spec_cells.now spec.now out.old }
{
    let spec = Record {
        cells: spec_cells,
        area: spec,
    };
    prepared(prepare(&spec, out)).write(answer)
}

// Collection of a call record against cells that are handed over as a prepared list: refused by 100 where they are none.
#[unsafe(no_mangle)]
pub extern "C" fn liuwdom_bind_prepared(
    list: &[u64],
    spec: &[u8],
    call_cells: &[u64],
    call: &[u8],
    board: &mut [u64],
    answer: &mut [u64; 8],
) -> u64
    ensures answer { Says (outcome_answer (bound_prepared spec.now list.now call_cells.now call.now board.old)) answer.new result }
    ensures board { board.new ≡ board_left (bound_prepared spec.now list.now call_cells.now call.now board.old) board.old }
{
    let list = Record {
        cells: list,
        area: spec,
    };
    let call = Record {
        cells: call_cells,
        area: call,
    };
    prepared_bound(bind_prepared(&list, &call, board)).write(answer)
}

// Whether a call fills a parameter list.
#[unsafe(no_mangle)]
pub extern "C" fn liuwdom_can_fill(
    spec_cells: &[u64],
    spec: &[u8],
    call_cells: &[u64],
    call: &[u8],
    answer: &mut [u64; 8],
) -> u64
    ensures { Says (filling_answer (fillable 64 64 spec_cells.now spec.now call_cells.now call.now)) answer.new result }
{
    let spec = Record {
        cells: spec_cells,
        area: spec,
    };
    let call = Record {
        cells: call_cells,
        area: call,
    };
    filled(can_fill_with_args(&spec, &call)).write(answer)
}

// The index of the nameable parameter with these bytes.
#[unsafe(no_mangle)]
pub extern "C" fn liuwdom_lookup(
    spec_cells: &[u64],
    spec: &[u8],
    name: &[u8],
    answer: &mut [u64; 8],
) -> u64
    ensures { Says (lookup_answer spec_cells.now spec.now name.now) answer.new result }
{
    let spec = Record {
        cells: spec_cells,
        area: spec,
    };
    let told = match build(&spec) {
        Ok(list) => found(get_str(&list, name)),
        Err(question) => refused(question),
    };
    told.write(answer)
}

// N, as pairs.
#[unsafe(no_mangle)]
pub extern "C" fn liuwdom_names_map(
    cells: &[u64],
    call: &[u8],
    out: &mut [u64],
    answer: &mut [u64; 8],
) -> u64
    ensures answer { Says (access_answer (rules.names_map 64 64 cells.now call.now out.old)) answer.new result }
    ensures output { out.new ≡ rules.left_by (rules.names_map 64 64 cells.now call.now out.old) (rules.names_map_cells cells.now call.now) out.old }
{
    let record = Record { cells, area: call };
    accessed(names_map(&record, out)).write(answer)
}

// P, as values.
#[unsafe(no_mangle)]
pub extern "C" fn liuwdom_positions(
    cells: &[u64],
    call: &[u8],
    out: &mut [u64],
    answer: &mut [u64; 8],
) -> u64
    ensures answer { Says (access_answer (rules.positions 64 64 cells.now call.now out.old)) answer.new result }
    ensures output { out.new ≡ rules.left_by (rules.positions 64 64 cells.now call.now out.old) (rules.positions_cells cells.now call.now) out.old }
{
    let record = Record { cells, area: call };
    accessed(positions(&record, out)).write(answer)
}

// How many arguments there are.
#[unsafe(no_mangle)]
pub extern "C" fn liuwdom_len(cells: &[u64], call: &[u8], answer: &mut [u64; 8]) -> u64
    ensures { Says (access_answer (rules.len 64 cells.now call.now)) answer.new result }
{
    let record = Record { cells, area: call };
    accessed(len(&record)).write(answer)
}

// Whether no name is given.
#[unsafe(no_mangle)]
pub extern "C" fn liuwdom_no_named_args(cells: &[u64], call: &[u8], answer: &mut [u64; 8]) -> u64
    ensures { Says (access_answer (rules.no_named_args 64 cells.now call.now)) answer.new result }
{
    let record = Record { cells, area: call };
    accessed(no_named_args(&record)).write(answer)
}

// From `required` to `required` + `more` positionals.
#[unsafe(no_mangle)]
pub extern "C" fn liuwdom_optional(
    cells: &[u64],
    call: &[u8],
    required: usize,
    more: usize,
    out: &mut [u64],
    answer: &mut [u64; 8],
) -> u64
    ensures answer { Says (access_answer (rules.optional 64 64 required more cells.now call.now out.old)) answer.new result }
    ensures output { out.new ≡ rules.left_by (rules.optional 64 64 required more cells.now call.now out.old) (rules.optional_cells required more cells.now call.now) out.old }
{
    let record = Record { cells, area: call };
    accessed(optional(&record, required, more, out)).write(answer)
}

// Just `required` positionals.
#[unsafe(no_mangle)]
pub extern "C" fn liuwdom_positional(
    cells: &[u64],
    call: &[u8],
    required: usize,
    out: &mut [u64],
    answer: &mut [u64; 8],
) -> u64
    ensures answer { Says (access_answer (rules.optional 64 64 required 0 cells.now call.now out.old)) answer.new result }
    ensures output { out.new ≡ rules.left_by (rules.optional 64 64 required 0 cells.now call.now out.old) (rules.optional_cells required 0 cells.now call.now) out.old }
{
    let record = Record { cells, area: call };
    accessed(positional(&record, required, out)).write(answer)
}

// The printed list.
#[unsafe(no_mangle)]
pub extern "C" fn liuwdom_parameters_str(
    spec_cells: &[u64],
    spec: &[u8],
    out: &mut [u8],
    answer: &mut [u64; 8],
) -> u64
    ensures answer { Says (access_answer (list.parameters_str 64 spec_cells.now spec.now out.old)) answer.new result }
    ensures output { out.new ≡ rules.left_by (list.parameters_str 64 spec_cells.now spec.now out.old) (list.printed (list_of spec_cells.now spec.now)) out.old }
{
    let spec = Record {
        cells: spec_cells,
        area: spec,
    };
    printed(parameters_str(&spec, out)).write(answer)
}

// Two sheets to the text that tells how the call binds.
#[unsafe(no_mangle)]
pub extern "C" fn liuwdom_bind(input: &[u8], out: &mut [u8], answer: &mut [u64; 8]) -> u64
    ensures answer { Says (bound_answer (sheet.bound 64 64 input.now out.old)) answer.new result }
    ensures output { out.new ≡ sheet.bound_left 64 64 input.now out.old }
{
    bound(bind(input, out)).write(answer)
}

// Two sheets to both records and the areas of their texts.
#[unsafe(no_mangle)]
pub extern "C" fn liuwdom_read_sheets(
    input: &[u8],
    spec_cells: &mut [u64],
    spec: &mut [u8],
    call_cells: &mut [u64],
    call: &mut [u8],
    answer: &mut [u64; 8],
) -> u64
    ensures answer { Says (reading_answer (reading input.now spec_cells.old spec.old call_cells.old call.old)) answer.new result }
    ensures parameters { spec_cells.new ≡ left_by (reading input.now spec_cells.old spec.old call_cells.old call.old) (encode_parameters (sheets_in input.now).parameters) spec_cells.old }
    ensures spec { spec.new ≡ left_by (reading input.now spec_cells.old spec.old call_cells.old call.old) (sheets_in input.now).spec_area spec.old }
    ensures arguments { call_cells.new ≡ left_by (reading input.now spec_cells.old spec.old call_cells.old call.old) (encode_call (sheets_in input.now).call) call_cells.old }
    ensures call { call.new ≡ left_by (reading input.now spec_cells.old spec.old call_cells.old call.old) (sheets_in input.now).call_area call.old }
{
    sheets_read(read_sheets(input, spec_cells, spec, call_cells, call)).write(answer)
}

// The slot reader at a position: a needed value.
#[unsafe(no_mangle)]
pub extern "C" fn liuwdom_read_next(slots: &[u64], at: usize, answer: &mut [u64; 8]) -> u64
    ensures { Says (read_answer (read_needed (left_at slots.now at)) (position_after slots.now at)) answer.new result }
{
    let reading = read_next(slots, at);
    read(reading.next, reading.at).write(answer)
}

// An optional value.
#[unsafe(no_mangle)]
pub extern "C" fn liuwdom_read_next_opt(slots: &[u64], at: usize, answer: &mut [u64; 8]) -> u64
    ensures { Says (read_answer (read_optional (left_at slots.now at)) (position_after slots.now at)) answer.new result }
{
    let reading = read_next_opt(slots, at);
    read(reading.next, reading.at).write(answer)
}

// Whether no slot is left.
#[unsafe(no_mangle)]
pub extern "C" fn liuwdom_read_is_eof(slots: &[u64], at: usize) -> bool
    ensures { result ≡ at_end (left_at slots.now at) }
{
    read_is_eof(slots, at)
}

// The first position at which the minutes of the last `w` runs exceed a limit.
#[unsafe(no_mangle)]
pub extern "C" fn liuwdom_window(minutes: &[u32], w: u64, limit: u64, answer: &mut [u64; 8]) -> u64
    ensures { Says (window_answer (runs.window w limit minutes.now)) answer.new result }
{
    exceeded(window(minutes, w, limit)).write(answer)
}
