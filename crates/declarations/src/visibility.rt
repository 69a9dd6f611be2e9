// A visibility: `pub`, and `package` in parentheses behind it.
ghost use Rattle.grammar.specs.Item.{package_in_parens, parse_visibility, optional_visibility};
ghost use Rattle.parser.specs.Rep.{entry, exit, Ran};

use grammar::message::{Message, PlainMessage};
use grammar::words::Word;
use lexer::syntax::SyntaxKind;
use parser::cursor::Cursor;
use parser::state::Parser;

// parse_visibility, at its parentheses
fn package_in_parens(parser: &mut Parser, c0: Cursor) -> Cursor
    ensures { Ran package_in_parens (entry parser c0) (exit parser result) }
{
    let a = parser.bump_regular_trivia(c0);
    let b = parser.bump(a);
    let d = parser.expect_keyword(
        b,
        Word::Package,
        Message::Plain(PlainMessage::ExpectedPackage),
    );
    let e = parser.expect_kind(
        d.c,
        SyntaxKind::RParen,
        Message::Plain(PlainMessage::ExpectedPackageEnd),
    );
    e.c
}

pub fn parse_visibility(parser: &mut Parser, c0: Cursor) -> Cursor
    ensures { Ran parse_visibility (entry parser c0) (exit parser result) }
{
    let a = parser.start_node(c0, SyntaxKind::Visibility);
    let b = parser.expect_keyword(a, Word::Pub, Message::Unreached);
    let next = parser.next_relevant_top_level_token(b.c.pos);
    let d = if parser.at_kind(next, SyntaxKind::LParen) {
        package_in_parens(parser, b.c)
    } else {
        b.c
    };
    parser.finish_node(d)
}

// if at_keyword("pub") { parse_visibility }
pub fn optional_visibility(parser: &mut Parser, c0: Cursor) -> Cursor
    ensures { Ran optional_visibility (entry parser c0) (exit parser result) }
{
    if parser.at_keyword(c0.pos, Word::Pub) {
        return parse_visibility(parser, c0);
    }
    c0
}
