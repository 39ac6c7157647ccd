// Questions 15 to 24, asked of a call against a list (01, the questions, binding).
// Reworked from starlark 0.14.2, src/eval/runtime/params/spec.rs, Apache-2.0.
#![tactic(auto)]

pub mod judge;
pub mod questions;
