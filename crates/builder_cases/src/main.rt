// The limits of parameter records that 01 has programs try rather than proofs, a few of each refusal 1 to 7, and lookups of
// each kind. A line says what was asked and the number of the refusal, 0 for none, or the index found.
#![tactic(auto)]

use builder::build;
use builder::spec::ParametersSpec;
use cells::question::Question;
use cells::record::Record;
use lookup::get_str;

// Names in the area of main: a payload is start × 256 + length.
const A: u64 = 1;

const B: u64 = 257;

const C: u64 = 513;

const START: u64 = 773;

const STAR: u64 = 772;

const BYTES_64: u64 = 2112;

const BYTES_65: u64 = 2113;

const EMPTY: u64 = 0;

const OUTSIDE: u64 = 18689;

// Codes of steps.
const REQUIRED: u64 = 1;

const OPTIONAL: u64 = 2;

const DEFAULTED: u64 = 3;

const SLASH: u64 = 4;

const BARE_STAR: u64 = 5;

const ARGS: u64 = 6;

const KWARGS: u64 = 7;

// A parameter record: its first `len` cells.
#[derive(Clone, Copy)]
struct ParameterRecord {
    cells: [u64; 272],
    len: usize,
}

impl ParameterRecord {
    // A function's name, and no step.
    fn new(name: u64) -> Self {
        let mut cells = [0; 272];
        cells[0] = name;
        ParameterRecord { cells, len: 1 }
    }

    fn step(mut self, code: u64, name: u64, kind: u64, payload: u64) -> Self {
        let at = self.len;
        if at < 268 {
            self.cells[at] = code;
            self.cells[at + 1] = name;
            self.cells[at + 2] = kind;
            self.cells[at + 3] = payload;
            self.len = at + 4;
        }
        self
    }

    fn add(self, code: u64, name: u64) -> Self {
        self.step(code, name, 0, 0)
    }

    // As many required parameters of one name.
    fn required(self, name: u64, times: u64) -> Self {
        let mut record = self;
        for _ in 0..times {
            record = record.add(REQUIRED, name);
        }
        record
    }

    // One cell more, which is no step.
    fn cell(mut self) -> Self {
        let at = self.len;
        if at < 272 {
            self.len = at + 1;
        }
        self
    }
}

fn main() {
    let area = b"abcstartnnnnnnnnnnnnnnnnnnnnnnnnnnnnnnnnnnnnnnnnnnnnnnnnnnnnnnnnnnnnnnnnn";
    limits(area);
    contents(area);
    places(area);
    names(area);
    lookups(area);
}

// 1 and 6, and the lengths of 3.
fn limits(area: &[u8]) {
    let f = ParameterRecord::new(START);
    case(area, b"no step", f);
    case(area, b"64 parameters", f.required(A, 64));
    case(area, b"65 parameters", f.required(A, 65));
    case(
        area,
        b"63 parameters, *args, **kwargs",
        f.required(A, 63).add(ARGS, 0).add(KWARGS, 0),
    );
    case(
        area,
        b"66 steps",
        f.required(A, 64).add(SLASH, 0).add(BARE_STAR, 0),
    );
    case(
        area,
        b"67 steps",
        f.required(A, 65).add(SLASH, 0).add(BARE_STAR, 0),
    );
    case(area, b"a cell too many", f.add(REQUIRED, A).cell());
    case(area, b"a name of 64 bytes", f.add(REQUIRED, BYTES_64));
    case(area, b"a name of 65 bytes", f.add(REQUIRED, BYTES_65));
    case(
        area,
        b"a function's name of 64 bytes",
        ParameterRecord::new(BYTES_64),
    );
    case(
        area,
        b"a function's name of 65 bytes",
        ParameterRecord::new(BYTES_65),
    );
}

// 2, 3 and 4.
fn contents(area: &[u8]) {
    let f = ParameterRecord::new(START);
    case(area, b"code 0", f.add(0, A));
    case(area, b"code 8", f.add(8, A));
    case(
        area,
        b"code 8 after an empty name",
        f.add(REQUIRED, EMPTY).add(8, A),
    );
    case(area, b"an empty name", f.add(OPTIONAL, EMPTY));
    case(area, b"a name outside the area", f.add(REQUIRED, OUTSIDE));
    case(area, b"a default", f.step(DEFAULTED, A, 3, 30));
    case(area, b"a default of kind 6", f.step(DEFAULTED, A, 6, A));
    case(
        area,
        b"a required parameter with a default",
        f.step(REQUIRED, A, 1, 0),
    );
    case(area, b"*args with a name", f.add(ARGS, A));
    case(
        area,
        b"a default of kind 6, then an empty name",
        f.step(DEFAULTED, A, 6, A).add(REQUIRED, EMPTY),
    );
}

// 5.
fn places(area: &[u8]) {
    let f = ParameterRecord::new(START);
    case(area, b"/ after *", f.add(BARE_STAR, 0).add(SLASH, 0));
    case(area, b"/ after /", f.add(SLASH, 0).add(SLASH, 0));
    case(area, b"* after *args", f.add(ARGS, 0).add(BARE_STAR, 0));
    case(area, b"*args after *", f.add(BARE_STAR, 0).add(ARGS, 0));
    case(
        area,
        b"a parameter after **kwargs",
        f.add(KWARGS, 0).add(REQUIRED, A),
    );
    case(
        area,
        b"**kwargs after **kwargs",
        f.add(KWARGS, 0).add(KWARGS, 0),
    );
    case(
        area,
        b"a parameter after *args",
        f.add(ARGS, 0).add(REQUIRED, A),
    );
}

// 7.
fn names(area: &[u8]) {
    let f = ParameterRecord::new(START);
    case(area, b"a, a", f.add(REQUIRED, A).add(REQUIRED, A));
    case(
        area,
        b"a, /, a",
        f.add(REQUIRED, A).add(SLASH, 0).add(REQUIRED, A),
    );
    case(
        area,
        b"/, a, a",
        f.add(SLASH, 0).add(REQUIRED, A).add(OPTIONAL, A),
    );
    case(
        area,
        b"/, a, *, a",
        f.add(SLASH, 0)
            .add(REQUIRED, A)
            .add(BARE_STAR, 0)
            .add(REQUIRED, A),
    );
    case(
        area,
        b"/, star, start",
        f.add(SLASH, 0).add(REQUIRED, STAR).add(REQUIRED, START),
    );
}

// One line: what is asked, and the number of the refusal.
fn case(area: &[u8], label: &[u8], record: ParameterRecord) {
    let number = match built(area, &record) {
        Ok(_) => 0,
        Err(question) => question.number(),
    };
    io::write_all(1, label);
    io::write_all(1, b": ");
    io::print_decimal(1, number);
    io::write_all(1, b"\n");
}

// The list of a record's first cells; of all where it has fewer.
fn built<'a>(area: &'a [u8], written: &'a ParameterRecord) -> Result<ParametersSpec<'a>, Question> {
    let all = &written.cells;
    let cells = all.get(..written.len).unwrap_or(all);
    build(&Record { cells, area })
}

// A lookup of each kind in the list a, /, b, start, *args, c, **kwargs.
fn lookups(area: &[u8]) {
    let record = ParameterRecord::new(A)
        .add(REQUIRED, A)
        .add(SLASH, 0)
        .add(OPTIONAL, B)
        .step(DEFAULTED, START, 1, 0)
        .add(ARGS, 0)
        .add(REQUIRED, C)
        .add(KWARGS, 0);
    if let Ok(list) = built(area, &record) {
        finding(&list, b"a");
        finding(&list, b"b");
        finding(&list, b"start");
        finding(&list, b"star");
        finding(&list, b"starts");
        finding(&list, b"c");
        finding(&list, b"*args");
        finding(&list, b"");
    }
}

// One line: the name, and the index found.
fn finding(list: &ParametersSpec, name: &[u8]) {
    io::write_all(1, b"find ");
    io::write_all(1, name);
    io::write_all(1, b": ");
    match get_str(list, name) {
        Some(i) => {
            io::print_decimal(1, i as u64);
        }
        None => {
            io::write_all(1, b"none");
        }
    }
    io::write_all(1, b"\n");
}
