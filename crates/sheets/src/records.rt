// The two records of a well-formed input, and how their call binds (01, sheets): each function holds what the next one is lent, the records, the
// list and the board.
ghost use Rattle.std.specs.Prelude.{◌≤◌, length};
ghost use Rattle.rules.specs.SheetOutput.{sheets_text};
ghost use Rattle.rules.specs.SheetRecords.{sheets_in};
ghost use Rattle.cells.specs.Out.{Put};
ghost use Rattle.builder.specs.Params.{parameters_in};
ghost use Rattle.sheet_judge.specs.Judged.{PlacesAre};
ghost use Rattle.sheets.specs.Bind.{records_text, bound_text, ListReady};
ghost use Rattle.sheets.specs.Read.{Room, RecordsWritten};

use builder::build;
use builder::spec::ParametersSpec;
use cells::record::Record;
use collector::collect::{BOARD, bind};
use sheet_judge::Places;
use sheet_output::outcome::{write_outcome, write_refusal};
use sheet_records::{Written, write_call, write_parameters};

// The cells of the longest parameter record, and of the longest call record.
pub const SPEC_CELLS: usize = 265;

pub const CALL_CELLS: usize = 774;

// No sheet has more bytes of texts than the input has bytes.
pub const TEXTS: usize = 16384;

// How many cells and bytes each of the two records takes.
#[derive(Clone, Copy, Debug, PartialEq, Eq)]
pub struct Records {
    pub spec: Written,
    pub call: Written,
}

// The two records, each stored from cell and byte 0 on.
pub(crate) fn write_records(
    input: &[u8],
    places: Places,
    spec_cells: &mut [u64],
    spec: &mut [u8],
    call_cells: &mut [u64],
    call: &mut [u8],
) -> Records
    requires { PlacesAre input.now places × Room spec_cells.old spec.old call_cells.old call.old }
    ensures { RecordsWritten input.now spec_cells.old spec.old call_cells.old call.old spec_cells.new spec.new call_cells.new call.new result }
{
    let list = write_parameters(
        input,
        places.parameters,
        places.parameter_rows,
        places.rows,
        spec_cells,
        spec,
    );
    let given = write_call(
        input,
        places.call,
        places.call_rows,
        places.counts,
        call_cells,
        call,
    );
    Records {
        spec: list,
        call: given,
    }
}

// The records in arrays of their own, and how their call binds.
pub(crate) fn bind_sheets(input: &[u8], places: Places, out: &mut [u8]) -> usize
    requires { PlacesAre input.now places × (40960 ≤ length out.old) }
    ensures { Put (sheets_text 64 64 (sheets_in input.now)) 0 out.old out.new result }
{
    let mut spec_cells: [u64; SPEC_CELLS] = [0; SPEC_CELLS];
    let mut spec: [u8; TEXTS] = [0; TEXTS];
    let mut call_cells: [u64; CALL_CELLS] = [0; CALL_CELLS];
    let mut call: [u8; TEXTS] = [0; TEXTS];
    let records = write_records(
        input,
        places,
        &mut spec_cells,
        &mut spec,
        &mut call_cells,
        &mut call,
    );
    let list = records.spec;
    let given = records.call;
    bind_records(
        &Record {
            cells: &spec_cells[..list.cells],
            area: &spec[..list.bytes],
        },
        &Record {
            cells: &call_cells[..given.cells],
            area: &call[..given.bytes],
        },
        out,
    )
}

// The list, or the question of 1 to 7 that refuses it.
fn bind_records(spec: &Record, call: &Record, out: &mut [u8]) -> usize
    requires { 40960 ≤ length out.old }
    ensures { Put (records_text spec.now.cells.now spec.now.area.now call.now.cells.now call.now.area.now) 0 out.old out.new result }
{
    match build(spec) {
        Ok(list) => bind_list(&list, call, out),
        Err(question) => write_refusal(question.number(), b"", out),
    }
}

// The board, and what is printed of it and of the answer.
fn bind_list(list: &ParametersSpec, call: &Record, out: &mut [u8]) -> usize
    requires { ListReady list.now.area.now list.now × (40960 ≤ length out.old) }
    ensures { Put (bound_text (parameters_in list.now.area.now list.now.params) list.now.area.now call.now.cells.now call.now.area.now) 0 out.old out.new result }
{
    let mut board: [u64; BOARD] = [0; BOARD];
    let answer = bind(list, call, &mut board);
    // A loan of the same list under another name: the borrow checker does not cover one that is lent a second time here.
    let printed = list;
    write_outcome(printed, call.area, &board, answer, out)
}
