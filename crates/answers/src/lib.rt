// What collection answers, and the name in a refusal's detail (01, the questions).
// Reworked from starlark 0.14.2, src/eval/runtime/params/spec.rs, Apache-2.0.
#![tactic(auto)]

pub mod answer;
pub mod detail;
