// Values in the cells of a sheet (01, sheets and the program bind): a cell's bytes read as a value, and a value's bytes written.
#![tactic(auto)]

pub mod print;
pub mod read;
