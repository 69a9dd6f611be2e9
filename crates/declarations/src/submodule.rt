// A submodule.
ghost use Rattle.grammar.specs.Item.{parse_submodule};
ghost use Rattle.parser.specs.Rep.{entry, exit, Ran};

use crate::parts::keyword_and_name;
use crate::visibility::optional_visibility;
use forms::line::parse_line_tail;
use grammar::message::{Message, PlainMessage};
use grammar::words::Word;
use lexer::syntax::SyntaxKind;
use parser::cursor::Cursor;
use parser::state::Parser;

pub fn parse_submodule(parser: &mut Parser, c0: Cursor) -> Cursor
    ensures { Ran parse_submodule (entry parser c0) (exit parser result) }
{
    let a = parser.start_node(c0, SyntaxKind::Submodule);
    let b = optional_visibility(parser, a);
    let d = keyword_and_name(
        parser,
        b,
        Word::Mod,
        Message::Plain(PlainMessage::ExpectedMod),
        Message::Plain(PlainMessage::ExpectedSubmoduleName),
    );
    let e = parse_line_tail(parser, d);
    parser.finish_node(e)
}
