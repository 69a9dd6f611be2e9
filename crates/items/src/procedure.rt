// Procedures and the `begin` block.
ghost use Rattle.grammar.specs.Block.{parse_block};
ghost use Rattle.grammar.specs.Item.{procedure_body, parse_procedure, parse_begin_block};
ghost use Rattle.parser.specs.Rep.{entry, exit, Ran, RanTo};
ghost use Rattle.items.specs.Procedure.{optional_signature, procedure_header, procedure_lead};

use blocks::block::parse_block;
use blocks::close::closing;
use blocks::place::Depth;
use declarations::attribute::attributes;
use declarations::parts::name_behind;
use declarations::signature::parse_signature;
use declarations::visibility::optional_visibility;
use forms::line::parse_line_tail;
use grammar::block::{BlockOwner, Terminators};
use grammar::limit::NestingLimit;
use grammar::message::{Message, PlainMessage};
use grammar::words::Word;
use lexer::syntax::SyntaxKind;
use parser::cursor::{Cursor, Flow};
use parser::state::Parser;

fn optional_signature(parser: &mut Parser, c0: Cursor) -> Cursor
    ensures { Ran optional_signature (entry parser c0) (exit parser result) }
{
    if parser.at_kind(c0.pos, SyntaxKind::LParen) {
        return parse_signature(parser, c0);
    }
    c0
}

// What stands between `proc` and the block.
fn procedure_header(parser: &mut Parser, c0: Cursor) -> Cursor
    ensures { Ran procedure_header (entry parser c0) (exit parser result) }
{
    let a = name_behind(
        parser,
        c0,
        Message::Plain(PlainMessage::ExpectedProcedureName),
    );
    let b = parser.bump_regular_trivia(a);
    let d = optional_signature(parser, b);
    parse_line_tail(parser, d)
}

// parse_procedure, behind `proc`
fn procedure_body(parser: &mut Parser, c0: Cursor, limit: NestingLimit) -> Cursor
    ensures { Ran (procedure_body (parse_block limit.forms)) (entry parser c0) (exit parser result) }
{
    let a = procedure_header(parser, c0);
    let b = parse_block(
        parser,
        a,
        BlockOwner::Procedure,
        Terminators::End,
        Depth { forms: 0, limit },
    );
    closing(parser, b.c, BlockOwner::Procedure, b.outcome)
}

// What stands before a procedure's name; whether `proc` was there.
fn procedure_lead(parser: &mut Parser, c0: Cursor) -> Flow
    ensures { RanTo procedure_lead (entry parser c0) (exit parser result.c) result.ok }
{
    let a = attributes(parser, c0);
    let b = parser.bump_regular_trivia(a);
    let d = optional_visibility(parser, b);
    let e = parser.bump_regular_trivia(d);
    parser.expect_keyword(e, Word::Proc, Message::Plain(PlainMessage::ExpectedProc))
}

pub fn parse_procedure(parser: &mut Parser, c0: Cursor, limit: NestingLimit) -> Cursor
    ensures { Ran (parse_procedure (parse_block limit.forms)) (entry parser c0) (exit parser result) }
{
    let a = parser.start_node(c0, SyntaxKind::Procedure);
    let b = procedure_lead(parser, a);
    if !b.ok {
        return parser.finish_node(b.c);
    }
    let d = procedure_body(parser, b.c, limit);
    parser.finish_node(d)
}

// A keyword, the rest of the line and the block.
pub fn parse_begin_block(parser: &mut Parser, c0: Cursor, limit: NestingLimit) -> Cursor
    ensures { Ran (parse_begin_block (parse_block limit.forms)) (entry parser c0) (exit parser result) }
{
    let a = parser.start_node(c0, SyntaxKind::BeginBlock);
    let b = parser.expect_keyword(a, Word::Begin, Message::Unreached);
    let d = parse_line_tail(parser, b.c);
    let e = parse_block(
        parser,
        d,
        BlockOwner::Begin,
        Terminators::End,
        Depth { forms: 0, limit },
    );
    let g = closing(parser, e.c, BlockOwner::Begin, e.outcome);
    parser.finish_node(g)
}
