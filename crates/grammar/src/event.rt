// Events that are no kinds: a node's kind opens it, CLOSE closes it; a token has its kind, and an Error token ERROR_TOKEN.
// Constants, and no enum: an event is a u16 of the slice that C lends, and mostly a kind of the lexer's.
pub const CLOSE: u16 = 0;

pub const ERROR_TOKEN: u16 = 60;
