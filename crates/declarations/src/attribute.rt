// Attributes, before a procedure.
ghost use Rattle.grammar.specs.Run.{loop};
ghost use Rattle.grammar.specs.Item.{parse_attribute, attribute_round};
ghost use Rattle.parser.specs.Rep.{entry, exit, Ran, RanTo};

use crate::parts::{name_behind, optional_parens};
use grammar::message::{Message, PlainMessage};
use lexer::syntax::SyntaxKind;
use parser::cursor::{Cursor, Flow};
use parser::state::Parser;

pub fn parse_attribute(parser: &mut Parser, c0: Cursor) -> Cursor
    ensures { Ran parse_attribute (entry parser c0) (exit parser result) }
{
    let a = parser.start_node(c0, SyntaxKind::Attribute);
    let b = parser.expect_kind(a, SyntaxKind::At, Message::Unreached);
    let d = name_behind(
        parser,
        b.c,
        Message::Plain(PlainMessage::ExpectedAttributeName),
    );
    let e = parser.bump_inline_whitespace(d);
    let f = optional_parens(
        parser,
        e,
        Message::Plain(PlainMessage::ExpectedAttributeEnd),
    );
    parser.finish_node(f)
}

// Whether an attribute was there.
fn attribute_round(parser: &mut Parser, c0: Cursor) -> Flow
    ensures { RanTo attribute_round (entry parser c0) (exit parser result.c) result.ok }
{
    let a = parser.bump_regular_trivia(c0);
    if parser.at_kind(a.pos, SyntaxKind::At) {
        return Flow {
            c: parse_attribute(parser, a),
            ok: true,
        };
    }
    Flow { c: a, ok: false }
}

#[tactic(auto, using(parser::proofs::Rounds::truly_attribute_round))]
pub fn attributes(parser: &mut Parser, c0: Cursor) -> Cursor
    ensures { Ran (loop attribute_round) (entry parser c0) (exit parser result) }
{
    parser.repeat(c0, attribute_round)
}
