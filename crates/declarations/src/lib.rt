// The items that hold no block, and what a procedure has before its own.
#![tactic(auto)]

pub mod advice_map;
pub mod attribute;
pub mod constant;
pub mod namespace;
pub mod parts;
pub mod signature;
pub mod submodule;
pub mod type_decl;
pub mod visibility;
