// What each name of a call is found to mean (01, collector): resolved once, kept for the questions and for placement.
// Reworked from starlark 0.14.2, src/eval/runtime/params/spec.rs, Apache-2.0.
#![tactic(auto)]

pub mod entries;
pub mod found;
pub mod resolve;
