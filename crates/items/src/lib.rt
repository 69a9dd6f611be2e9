// The items, and the whole file.
#![tactic(auto)]

pub mod arm;
pub mod file;
pub mod item;
pub mod procedure;
