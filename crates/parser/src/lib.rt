// The lower half of the parser: the cursor, lookahead, the small steps and delimiter counts.
#![tactic(auto)]

pub mod bump;
pub mod cursor;
pub mod kinds;
pub mod look;
pub mod nest;
pub mod round;
pub mod sets;
pub mod state;
