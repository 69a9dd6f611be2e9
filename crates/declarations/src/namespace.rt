// A namespace.
ghost use Rattle.grammar.specs.Item.{parse_namespace};
ghost use Rattle.parser.specs.Rep.{entry, exit, Ran};

use forms::line::parse_line_tail;
use forms::path::parse_path_with_message;
use grammar::message::{Message, PlainMessage};
use grammar::words::Word;
use lexer::syntax::SyntaxKind;
use parser::cursor::Cursor;
use parser::state::Parser;

pub fn parse_namespace(parser: &mut Parser, c0: Cursor) -> Cursor
    ensures { Ran parse_namespace (entry parser c0) (exit parser result) }
{
    let a = parser.start_node(c0, SyntaxKind::Namespace);
    let b = parser.expect_keyword(a, Word::Namespace, Message::Unreached);
    let d = parser.bump_regular_trivia(b.c);
    let e = parse_path_with_message(
        parser,
        d,
        Message::Plain(PlainMessage::ExpectedNamespacePath),
    );
    let f = parse_line_tail(parser, e);
    parser.finish_node(f)
}
