// The slots and the board of an accepted call (01, board).
// Reworked from starlark 0.14.2, src/eval/runtime/params/spec.rs, Apache-2.0.
#![tactic(auto)]

pub mod board;
pub mod slots;
