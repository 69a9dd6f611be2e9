// The grammar of Miden Assembly: the enums and structs that its definitions and its code share.
#![tactic(auto)]

pub mod block;
pub mod event;
pub mod limit;
pub mod message;
pub mod nesting;
pub mod words;
