// Cells and texts (01, cells, texts and records): texts and their bytes, `Value` and its two cells, cells read out of a
// record, and output into lent cells.
#![tactic(auto)]

pub mod key;
pub mod out;
pub mod question;
pub mod record;
pub mod text;
pub mod value;
