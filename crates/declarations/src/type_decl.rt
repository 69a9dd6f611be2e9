// A type declaration.
ghost use Rattle.std.specs.Prelude.{◌≡◌, drop, is_none, IfSome};
ghost use Rattle.grammar.specs.Run.{scan};
ghost use Rattle.grammar.specs.Nesting.{default};
ghost use Rattle.grammar.specs.Line.{type_round, parse_type_body};
ghost use Rattle.grammar.specs.Item.{type_name_and_body, parse_type_decl};
ghost use Rattle.parser.specs.Rep.{entry, exit, Ran};
ghost use Rattle.parser.specs.Ahead.{BreakKnown};
ghost use Rattle.declarations.specs.Parts.{type_keyword, type_ends};

use crate::visibility::optional_visibility;
use grammar::message::{Message, PlainMessage};
use grammar::nesting::Nesting;
use lexer::syntax::SyntaxKind;
use parser::cursor::Cursor;
use parser::kinds::{in_set, in_words};
use parser::look::Remembered;
use parser::nest::Nested;
use parser::sets::{EQUAL_OR_COLON, TYPE_WORDS};
use parser::state::Parser;

// What is remembered of the lookahead behind newlines; none where a type's body ends here.
#[tactic(auto, unfolding(crate::specs::Parts::type_ends))]
fn body_goes_on(parser: &Parser, at: Nested, known: Remembered) -> Option<Remembered>
    requires { BreakKnown parser.now.kinds.now at.c.pos known }
    ensures ends { is_none result ≡ type_ends at.nesting (drop at.c.pos parser.now.kinds.now) }
    ensures known { IfSome result (λ k. BreakKnown parser.now.kinds.now at.c.pos k) }
{
    if !at.nesting.is_root() || !parser.at_kind(at.c.pos, SyntaxKind::Newline) {
        return Some(known);
    }
    let b = parser.line_break_starts_new_top_level_item(at.c.pos, known);
    (!b.starts).then_some(b)
}

fn type_tokens(parser: &mut Parser, c0: Cursor) -> Cursor
    ensures { Ran (scan type_round default) (entry parser c0) (exit parser result) }
{
    let mut at = Nested {
        c: c0,
        nesting: Nesting::default(),
    };
    let mut known = Remembered {
        next: 0,
        starts: false,
    };
    while !parser.eof(at.c.pos) {
        let Some(k) = body_goes_on(parser, at, known) else {
            return at.c;
        };
        known = k;
        at = parser.bump_nested(at);
    }
    at.c
}

pub fn parse_type_body(parser: &mut Parser, c0: Cursor) -> Cursor
    ensures { Ran parse_type_body (entry parser c0) (exit parser result) }
{
    let a = parser.start_node(c0, SyntaxKind::TypeBody);
    let b = type_tokens(parser, a);
    parser.finish_node(b)
}

// parse_type_decl, behind `type` or `enum`
fn type_name_and_body(parser: &mut Parser, c0: Cursor) -> Cursor
    ensures { Ran type_name_and_body (entry parser c0) (exit parser result) }
{
    let a = parser.bump_regular_trivia(c0);
    let b = parser.expect_name(a, Message::Plain(PlainMessage::ExpectedTypeName));
    let d = parser.bump_regular_trivia(b);
    if in_set(EQUAL_OR_COLON, parser.current(d.pos)) {
        return parse_type_body(parser, d);
    }
    parser.error_here(d, Message::Plain(PlainMessage::ExpectedTypeEqualOrColon))
}

// The keyword and what stands behind it, or a diagnostic.
fn type_keyword(parser: &mut Parser, c0: Cursor) -> Cursor
    ensures { Ran type_keyword (entry parser c0) (exit parser result) }
{
    if in_words(TYPE_WORDS, parser.current(c0.pos)) {
        let a = parser.bump(c0);
        return type_name_and_body(parser, a);
    }
    parser.error_here(c0, Message::Plain(PlainMessage::ExpectedTypeOrEnum))
}

pub fn parse_type_decl(parser: &mut Parser, c0: Cursor) -> Cursor
    ensures { Ran parse_type_decl (entry parser c0) (exit parser result) }
{
    let a = parser.start_node(c0, SyntaxKind::TypeDecl);
    let b = optional_visibility(parser, a);
    let d = parser.bump_regular_trivia(b);
    let e = type_keyword(parser, d);
    parser.finish_node(e)
}
