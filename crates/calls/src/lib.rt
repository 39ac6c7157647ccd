// The call record (01, questions 9 to 13): the questions put to arbitrary cells, and where the values of P and the pairs of N
// stand in a record that passes them.
#![tactic(auto)]

ghost use Rattle.std.specs.Prelude.{◌≡◌};
ghost use Rattle.rules.specs.Answer.{fine};
ghost use Rattle.rules.specs.CallQuestions.{ask_form, ask_call};
ghost use Rattle.cells.specs.Question.{answer_of};
ghost use Rattle.calls.specs.Keys.{ask_keys};

use crate::differ::keys_differ;
use crate::form::{kinds_right, lengths_right, parts_formed};
use crate::head::{entries_from, named_from, read_head};
use cells::question::Question;
use cells::record::Record;

pub mod differ;
pub mod form;
pub mod head;
pub mod place;
pub mod slot;
pub mod values;

// Questions 9 to 11, which can-fill asks too.
pub fn ask_form(record: &Record) -> Result<(), Question>
    ensures { answer_of result ≡ ask_form 64 record.now.cells.now record.now.area.now }
{
    if !lengths_right(record.cells) {
        return Err(Question::WrongLength);
    }
    if !kinds_right(record.cells) {
        return Err(Question::WrongKind);
    }
    if !parts_formed(record) {
        return Err(Question::MalformedPart);
    }
    Ok(())
}

// Questions 9 to 12: all but 13, which binding answers by what the names mean.
pub fn ask_keys(record: &Record) -> Result<(), Question>
    ensures { answer_of result ≡ ask_keys 64 record.now.cells.now record.now.area.now }
{
    ask_form(record)?;
    ask_entries(record)
}

// The same of a record that has passed 9 to 11: 12 is left.
pub fn ask_entries(record: &Record) -> Result<(), Question>
    requires { ask_form 64 record.now.cells.now record.now.area.now ≡ fine }
    ensures { answer_of result ≡ ask_keys 64 record.now.cells.now record.now.area.now }
{
    let h = read_head(record.cells);
    if !keys_differ(record, entries_from(h), h.d) {
        return Err(Question::RepeatedKey);
    }
    Ok(())
}

// Questions 9 to 13.
pub fn ask_call(record: &Record) -> Result<(), Question>
    ensures { answer_of result ≡ ask_call 64 record.now.cells.now record.now.area.now }
{
    ask_keys(record)?;
    let h = read_head(record.cells);
    if !keys_differ(record, named_from(h), h.n) {
        return Err(Question::RepeatedName);
    }
    Ok(())
}
