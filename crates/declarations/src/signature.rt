// A procedure's signature.
ghost use Rattle.grammar.specs.Item.{parse_results, parse_signature};
ghost use Rattle.parser.specs.Rep.{entry, exit, Ran};

use forms::line::parse_signature_result_until_line_end;
use forms::path::parse_balanced_group;
use grammar::message::{Message, PlainMessage};
use lexer::syntax::SyntaxKind;
use parser::cursor::Cursor;
use parser::state::Parser;

// parse_signature, behind the arrow
fn parse_results(parser: &mut Parser, c0: Cursor) -> Cursor
    ensures { Ran parse_results (entry parser c0) (exit parser result) }
{
    let a = parser.bump_non_comment_trivia(c0);
    let b = parser.bump(a);
    let d = parser.bump_non_comment_trivia(b);
    if parser.at_kind(d.pos, SyntaxKind::LParen) {
        return parse_balanced_group(
            parser,
            d,
            SyntaxKind::LParen,
            SyntaxKind::RParen,
            Message::Plain(PlainMessage::ExpectedResultsEnd),
        );
    }
    parse_signature_result_until_line_end(parser, d)
}

pub fn parse_signature(parser: &mut Parser, c0: Cursor) -> Cursor
    ensures { Ran parse_signature (entry parser c0) (exit parser result) }
{
    let a = parser.start_node(c0, SyntaxKind::Signature);
    let b = parse_balanced_group(
        parser,
        a,
        SyntaxKind::LParen,
        SyntaxKind::RParen,
        Message::Plain(PlainMessage::ExpectedParametersEnd),
    );
    let next = parser.peek_after_non_comment_trivia(b.pos);
    let d = if parser.at_kind(next, SyntaxKind::RArrow) {
        parse_results(parser, b)
    } else {
        b
    };
    parser.finish_node(d)
}
