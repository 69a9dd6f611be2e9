// Blocks and the four control forms.
#![tactic(auto)]

pub mod any_depth;
#[cfg(test)]
mod any_depth_tests;
pub mod arm;
pub mod block;
pub mod close;
pub mod header;
pub mod place;
pub mod reject;
pub mod rounds;
pub mod step;
pub mod suffix;
