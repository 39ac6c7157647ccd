// What the two sheets of an input bring into their areas (01, sheets; cells, texts and records): the texts of a row, its name's before
// its value's, and their kind.
ghost use Rattle.std.specs.Prelude.{◌≡◌, eqb, length};
ghost use Rattle.std.specs.Option.{is_some};
ghost use Rattle.rules.specs.SheetRows.{call_part, part_number};
ghost use Rattle.sheet_lines.specs.Row.{row_of};
ghost use Rattle.sheet_lines.specs.Word.{call_part_of};
ghost use Rattle.sheet_records.specs.Sheet.{is_call};
ghost use Rattle.sheet_records.specs.Text.{name_text, row_texts};
ghost use Rattle.sheet_records.specs.Run.{text_kind};

use crate::cell::text_of;
use sheet_lines::row::Row;
use sheet_lines::word::{CallPart, call_part};

// The kinds of texts, by the area that they stand in.
const SPEC_TEXT: u64 = 5;

pub(crate) const CALL_TEXT: u64 = 6;

#[derive(Clone, Copy, Debug, PartialEq, Eq)]
pub(crate) enum Sheet {
    Parameters,
    Call,
}

impl Sheet {
    // The sheet that some rows are wanted of: of a call those of one part at a time.
    pub(crate) fn of(wanted: Option<CallPart>) -> Sheet
        ensures { is_call result ≡ is_some wanted }
    {
        match wanted {
            Some(_) => Sheet::Call,
            None => Sheet::Parameters,
        }
    }

    // The kind of its texts.
    #[tactic(auto, unfolding(crate::specs::Run::text_kind, rules::specs::Value::spec_text, rules::specs::Value::call_text))]
    pub(crate) fn text_kind(self) -> u64
        ensures { result ≡ text_kind (is_call self) }
    {
        match self {
            Sheet::Parameters => SPEC_TEXT,
            Sheet::Call => CALL_TEXT,
        }
    }

    // The text that a row's name brings. In a call the key of an entry is written like a value, and only a text brings bytes.
    #[tactic(auto, unfolding(crate::specs::Text::name_text, rules::specs::SheetRecords::key_text, rules::specs::SheetRows::is_part))]
    pub(crate) fn name_text<'a>(self, row: Row<'a>) -> &'a [u8]
        ensures { result.now ≡ name_text (is_call self) (row_of row.entry) }
    {
        if self == Sheet::Call && is_part(CallPart::Entry, row.part) {
            return text_of(row.name);
        }
        row.name
    }

    // How many bytes a row's texts are.
    #[tactic(auto, using(crate::proofs::LawsFit::texts_length))]
    pub(crate) fn texts_len(self, row: Row) -> usize
        ensures { result ≡ length (row_texts (is_call self) (row_of row.entry)) }
    {
        self.name_text(row).len() + text_of(row.value).len()
    }
}

// Does a row's part name what is wanted?
pub(crate) fn is_part(wanted: CallPart, part: &[u8]) -> bool
    ensures { result ≡ eqb (part_number (call_part part.now)) (part_number (call_part_of wanted)) }
{
    call_part(part) == Some(wanted)
}
