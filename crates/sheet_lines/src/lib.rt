// From bytes to rows (01, sheets and the program bind): lines, cells, headers and rows. The input stays one lent run of bytes,
// and a line, a cell and a row are parts of it. Nothing here knows what a row means, but for its words.
#![tactic(auto)]

pub mod header;
pub mod line;
pub mod lines;
pub mod piece;
pub mod row;
pub mod word;
