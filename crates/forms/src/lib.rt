// What runs along a line: paths and groups, line forms, instructions.
#![tactic(auto)]

pub mod instruction;
pub mod line;
pub mod path;
