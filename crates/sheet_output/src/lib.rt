// What `bind` prints of a call (01, sheets and the program bind): how a call that was bound against a list ends, as text in a lent output.
#![tactic(auto)]

pub mod line;
pub mod outcome;
pub mod parts;
