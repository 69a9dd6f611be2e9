// An entry of the advice map.
ghost use Rattle.grammar.specs.Item.{parse_advice_map};
ghost use Rattle.parser.specs.Rep.{entry, exit, Ran};

use crate::parts::{keyword_and_name, optional_parens, value_line};
use grammar::message::{Message, PlainMessage};
use grammar::words::Word;
use lexer::syntax::SyntaxKind;
use parser::cursor::Cursor;
use parser::state::Parser;

pub fn parse_advice_map(parser: &mut Parser, c0: Cursor) -> Cursor
    ensures { Ran parse_advice_map (entry parser c0) (exit parser result) }
{
    let a = parser.start_node(c0, SyntaxKind::AdviceMap);
    let b = keyword_and_name(
        parser,
        a,
        Word::AdvMap,
        Message::Unreached,
        Message::Plain(PlainMessage::ExpectedAdviceMapName),
    );
    let d = parser.bump_inline_whitespace(b);
    let e = optional_parens(
        parser,
        d,
        Message::Plain(PlainMessage::ExpectedAdviceMapKeyEnd),
    );
    let f = value_line(
        parser,
        e,
        Message::Plain(PlainMessage::ExpectedAdviceMapEqual),
    );
    parser.finish_node(f)
}
