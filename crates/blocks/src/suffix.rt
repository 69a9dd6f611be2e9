// The suffixes of a structured header: a dot, and a group, a name, a number or a text behind it.
ghost use Rattle.std.specs.Prelude.{◌≡◌, ◌||◌, [], ◌∷◌};
ghost use Rattle.lexer.specs.Syntax.{Number, QuotedString};
ghost use Rattle.grammar.specs.Look.{name_like, one_of};
ghost use Rattle.grammar.specs.Block.{suffix_operand, suffix_round, parse_structured_header_suffixes};
ghost use Rattle.parser.specs.Rep.{entry, exit, Ran, RanTo};

use forms::path::parse_balanced_group;
use grammar::message::{Message, PlainMessage};
use lexer::syntax::{L_BRACKET, SyntaxKind};
use parser::cursor::{Cursor, Flow};
use parser::kinds::{in_set, is_name_like};
use parser::sets::LITERALS;
use parser::state::Parser;

#[tactic(auto, using(parser::proofs::Bits::literals))]
fn is_operand(k: u16) -> bool
    ensures { result ≡ (name_like k || one_of (Number ∷ QuotedString ∷ []) k) }
{
    is_name_like(k) || in_set(LITERALS, k)
}

// Behind the dot: whether an operand stands there.
fn suffix_operand(parser: &mut Parser, c0: Cursor) -> Flow
    ensures { RanTo suffix_operand (entry parser c0) (exit parser result.c) result.ok }
{
    let k = parser.current(c0.pos);
    if k == L_BRACKET {
        return Flow {
            c: parse_balanced_group(
                parser,
                c0,
                SyntaxKind::LBracket,
                SyntaxKind::RBracket,
                Message::Plain(PlainMessage::ExpectedSuffixEnd),
            ),
            ok: true,
        };
    }
    if is_operand(k) {
        return Flow {
            c: parser.bump(c0),
            ok: true,
        };
    }
    Flow {
        c: parser.error_here(c0, Message::Plain(PlainMessage::ExpectedSuffix)),
        ok: false,
    }
}

// Whether there is a further suffix.
fn suffix_round(parser: &mut Parser, c0: Cursor) -> Flow
    ensures { RanTo suffix_round (entry parser c0) (exit parser result.c) result.ok }
{
    let a = parser.bump_inline_whitespace(c0);
    if !parser.at_kind(a.pos, SyntaxKind::Dot) {
        return Flow { c: a, ok: false };
    }
    let b = parser.bump(a);
    let d = parser.bump_inline_whitespace(b);
    suffix_operand(parser, d)
}

#[tactic(auto, using(parser::proofs::Rounds::truly_suffix_round), unfolding(grammar::specs::Block::parse_structured_header_suffixes))]
pub fn parse_structured_header_suffixes(parser: &mut Parser, c0: Cursor) -> Cursor
    ensures { Ran parse_structured_header_suffixes (entry parser c0) (exit parser result) }
{
    parser.repeat(c0, suffix_round)
}
