// The rest of a file whose control flow is nested too deep.
ghost use Rattle.grammar.specs.Block.{reject_excessive_control_flow_nesting as reject};
ghost use Rattle.parser.specs.Rep.{entry, exit, Ran};

use grammar::message::{Message, PlainMessage};
use lexer::syntax::SyntaxKind;
use parser::cursor::Cursor;
use parser::state::Parser;

// Past its test of the depth: an Error node around all that is left.
pub fn reject_excessive_control_flow_nesting(parser: &mut Parser, c0: Cursor) -> Cursor
    ensures { Ran reject (entry parser c0) (exit parser result) }
{
    let a = parser.start_node(c0, SyntaxKind::Error);
    let mut c = parser.error_here(a, Message::Plain(PlainMessage::NestingTooDeep));
    while !parser.eof(c.pos) {
        c = parser.bump(c);
    }
    parser.finish_node(c)
}
