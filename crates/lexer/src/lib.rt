// The lexer: kinds as in syntax.rs, tokens as in lexer.rs.
#![tactic(auto)]

mod chars;
mod class;
mod lexer;
mod quoted;
mod runs;
mod slices;
mod state;
pub mod syntax;

pub use class::{Class, class_of};
pub use lexer::{MAX_SOURCE, Token, tokenize};
pub use slices::{TokenSlices, put_token};
pub use state::Lexer;
