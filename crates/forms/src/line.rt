// Line forms: what runs to the end of a line.
ghost use Rattle.std.specs.Prelude.{◌≡◌, ◌&&◌, drop};
ghost use Rattle.grammar.specs.Look.{at_kind, space_before_top_level_item};
ghost use Rattle.lexer.specs.Syntax.{Whitespace};
ghost use Rattle.grammar.specs.Run.{scan};
ghost use Rattle.grammar.specs.Line.{parse_line_tail, expr_round, no_token, parse_expr_until_line_end};
ghost use Rattle.grammar.specs.Line.{parse_signature_result_until_line_end};
ghost use Rattle.parser.specs.Rep.{entry, exit, Ran};
ghost use Rattle.forms.specs.Line.{line_ends, expr_ends, result_end};

use grammar::message::{Message, PlainMessage};
use grammar::nesting::Nesting;
use lexer::syntax::SyntaxKind;
use parser::cursor::Cursor;
use parser::kinds::{in_set, is_trivia};
use parser::nest::Nested;
use parser::sets::LINE_END;
use parser::state::Parser;

// Whitespace, and at most one comment.
pub fn parse_line_tail(parser: &mut Parser, c0: Cursor) -> Cursor
    ensures { Ran parse_line_tail (entry parser c0) (exit parser result) }
{
    let c = parser.bump_inline_whitespace(c0);
    parser.bump_at(c, SyntaxKind::Comment)
}

// Whether the line ends here: outside of delimiters, at a newline or a comment.
#[tactic(auto, using(crate::proofs::At::line_end), unfolding(crate::specs::Line::line_ends))]
fn at_line_end(parser: &Parser, at: Nested) -> bool
    ensures { result ≡ line_ends at.nesting (drop at.c.pos parser.now.kinds.now) }
{
    at.nesting.is_root() && in_set(LINE_END, parser.current(at.c.pos))
}

// Whether whitespace stands here before the next item.
#[tactic(auto, using(parser::proofs::Ahead::one_on), unfolding(grammar::specs::Look::space_before_top_level_item))]
fn space_before_item(parser: &Parser, p: usize) -> bool
    ensures { result ≡ (at_kind Whitespace (drop p parser.now.kinds.now) && space_before_top_level_item (drop p parser.now.kinds.now)) }
{
    parser.at_kind(p, SyntaxKind::Whitespace)
        && parser.is_top_level_starter(parser.next_relevant_top_level_token(p + 1))
}

// Whether an expression ends here: where the line does, or where whitespace stands before the next item.
#[tactic(auto, unfolding(crate::specs::Line::expr_ends))]
fn at_expr_end(parser: &Parser, at: Nested, saw: bool) -> bool
    ensures { result ≡ expr_ends at.nesting saw (drop at.c.pos parser.now.kinds.now) }
{
    at_line_end(parser, at) || at.nesting.is_root() && saw && space_before_item(parser, at.c.pos)
}

fn expr_tokens(parser: &mut Parser, c0: Cursor) -> Cursor
    ensures { Ran (scan expr_round no_token) (entry parser c0) (exit parser result) }
{
    let mut at = Nested {
        c: c0,
        nesting: Nesting::default(),
    };
    let mut saw_significant = false;
    while !parser.eof(at.c.pos) && !at_expr_end(parser, at, saw_significant) {
        saw_significant = saw_significant || !is_trivia(parser.current(at.c.pos));
        at = parser.bump_nested(at);
    }
    at.c
}

pub fn parse_expr_until_line_end(parser: &mut Parser, c0: Cursor) -> Cursor
    ensures { Ran parse_expr_until_line_end (entry parser c0) (exit parser result) }
{
    let a = parser.bump_regular_trivia(c0);
    let b = parser.start_node(a, SyntaxKind::Expr);
    let d = expr_tokens(parser, b);
    parser.finish_node(d)
}

// A result type must have a token.
fn result_end(parser: &mut Parser, c0: Cursor, taken: bool) -> Cursor
    ensures { Ran (result_end taken) (entry parser c0) (exit parser result) }
{
    if taken {
        return c0;
    }
    parser.error_here(c0, Message::Plain(PlainMessage::ExpectedResultType))
}

pub fn parse_signature_result_until_line_end(parser: &mut Parser, c0: Cursor) -> Cursor
    ensures { Ran parse_signature_result_until_line_end (entry parser c0) (exit parser result) }
{
    let mut at = Nested {
        c: c0,
        nesting: Nesting::default(),
    };
    let mut taken = false;
    while !parser.eof(at.c.pos) && !at_line_end(parser, at) {
        at = parser.bump_nested(at);
        taken = true;
    }
    result_end(parser, at.c, taken)
}
