// A constant.
ghost use Rattle.grammar.specs.Item.{parse_constant};
ghost use Rattle.parser.specs.Rep.{entry, exit, Ran};

use crate::parts::{keyword_and_name, value_line};
use crate::visibility::optional_visibility;
use grammar::message::{Message, PlainMessage};
use grammar::words::Word;
use lexer::syntax::SyntaxKind;
use parser::cursor::Cursor;
use parser::state::Parser;

pub fn parse_constant(parser: &mut Parser, c0: Cursor) -> Cursor
    ensures { Ran parse_constant (entry parser c0) (exit parser result) }
{
    let a = parser.start_node(c0, SyntaxKind::Constant);
    let b = optional_visibility(parser, a);
    let d = keyword_and_name(
        parser,
        b,
        Word::Const,
        Message::Plain(PlainMessage::ExpectedConst),
        Message::Plain(PlainMessage::ExpectedConstantName),
    );
    let e = value_line(
        parser,
        d,
        Message::Plain(PlainMessage::ExpectedConstantEqual),
    );
    parser.finish_node(e)
}
