// Accessors (01, accessors): what is read off a call without a parameter list. Cells, areas and output are any that are lent, and
// nothing is written before the last question is asked.
// Reworked from starlark 0.14.2, src/eval/runtime/arguments.rs, Apache-2.0.
#![tactic(auto)]

pub mod answer;
pub mod ask;
pub mod entries;
pub mod len;
pub mod names_map;
pub mod no_named_args;
pub mod optional;
pub mod positions;
