// The collector (01, collector and can-fill): a call bound against a parameter list.
// Reworked from starlark 0.14.2, src/eval/runtime/params/spec.rs, Apache-2.0.
#![tactic(auto)]

pub mod collect;
