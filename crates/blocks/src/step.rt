// The rounds of parse_block's loop that take tokens and go on.
ghost use Rattle.grammar.specs.Bump.{error_token};
ghost use Rattle.grammar.specs.declared.message.Message.TheVariants.{Plain as plain};
ghost use Rattle.parser.specs.Rep.{entry, exit, Ran};
ghost use Rattle.blocks.specs.Arms.{taking};

use crate::arm::Taken;
use forms::instruction::parse_instruction;
use grammar::message::{Message, PlainMessage};
use parser::cursor::Cursor;
use parser::state::Parser;

// An Error node around a token that has no place in a block. One function makes both calls: with error_token called in both arms of
// `take` the call takes 5 percent more instructions on a file of instructions.
fn bad_token(parser: &mut Parser, c0: Cursor, m: PlainMessage) -> Cursor
    ensures { Ran (error_token (plain m)) (entry parser c0) (exit parser result) }
{
    parser.error_token(c0, Message::Plain(m))
}

#[tactic(auto, using(crate::proofs::Laws::took), unfolding(crate::specs::Arms::taking))]
pub fn take(parser: &mut Parser, c0: Cursor, t: Taken) -> Cursor
    ensures { Ran (taking t) (entry parser c0) (exit parser result) }
{
    match t {
        Taken::Trivia => parser.bump(c0),
        Taken::Doc => bad_token(parser, c0, PlainMessage::DocCommentInBlock),
        Taken::Instruction => parse_instruction(parser, c0),
        Taken::Bad => bad_token(parser, c0, PlainMessage::UnexpectedTokenInBlock),
    }
}
