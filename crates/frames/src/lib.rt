// What the programs share: standard input, the numbers of a frame, text for standard output.
#![tactic(auto)]

pub mod header;
pub mod input;
pub mod output;
