// What the programs that replay cases share: the input as numbers or as sheets, what was expected against what was got, and the count of
// the cases.
#![tactic(auto)]

pub mod compare;
pub mod numbers;
pub mod sheets;
pub mod tally;
