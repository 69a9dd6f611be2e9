// Instructions.
ghost use Rattle.std.specs.Prelude.{◌≡◌, true, false, drop, Some};
ghost use Rattle.lexer.specs.Syntax.{DocComment};
ghost use Rattle.grammar.specs.Words.{is};
ghost use Rattle.grammar.specs.Look.{at as stands};
ghost use Rattle.grammar.specs.Run.{scan};
ghost use Rattle.grammar.specs.Nesting.{default};
ghost use Rattle.grammar.specs.Instruction.{expects_operand, should_continue_instruction_after_whitespace as should_continue};
ghost use Rattle.grammar.specs.Instruction.{should_stop_instruction_before as should_stop, instruction_round, before_first};
ghost use Rattle.grammar.specs.Instruction.{parse_instruction};
ghost use Rattle.parser.specs.Rep.{entry, exit, Ran};
ghost use Rattle.forms.specs.Instruction.{starts_next, instruction_ends, behind, open_behind, PlainTokens};

use grammar::block::Terminators;
use grammar::nesting::Nesting;
use lexer::syntax::{SyntaxKind, WHITESPACE};
use parser::cursor::Cursor;
use parser::kinds::{
    expects_continuation_operand, in_set, is_control_flow, is_trivia,
    punctuation_continues_instruction, starts_instruction,
};
use parser::nest::Nested;
use parser::sets::{GOES_ON, LINE_END, PLAIN, PLAIN_PUNCTUATION};
use parser::state::Parser;

// Whether the last token that an instruction took, trivia aside, expects an operand.
#[tactic(auto, unfolding(grammar::specs::Instruction::expects_operand))]
fn expects_operand(previous: Option<u16>) -> bool
    ensures { result ≡ expects_operand previous }
{
    previous.is_some_and(expects_continuation_operand)
}

#[tactic(auto, using(crate::proofs::At::continues), unfolding(grammar::specs::Instruction::should_continue_instruction_after_whitespace))]
pub fn should_continue_instruction_after_whitespace(
    parser: &Parser,
    at: Nested,
    previous: Option<u16>,
) -> bool
    ensures { result ≡ should_continue previous at.nesting (drop at.c.pos parser.now.kinds.now) }
{
    !at.nesting.is_root()
        || previous.is_some()
            && (expects_operand(previous)
                || punctuation_continues_instruction(parser.current(
                    parser.peek_after_inline_whitespace(at.c.pos),
                )))
}

// A terminator, an operation, or what ends a block that lacks its `end`; not asked at a doc comment.
#[tactic(auto, using(crate::proofs::At::next), unfolding(grammar::specs::Look::can_start_operation))]
fn at_next(parser: &Parser, p: usize) -> bool
    requires { stands (is DocComment) (drop p parser.now.kinds.now) ≡ false }
    ensures { result ≡ starts_next (drop p parser.now.kinds.now) }
{
    let k = parser.current(p);
    parser.at_terminator(p, Terminators::ElseEnd)
        || starts_instruction(k)
        || is_control_flow(k)
        || parser.is_top_level_starter(p)
}

#[tactic(auto, using(crate::proofs::At::continues), unfolding(grammar::specs::Instruction::should_stop_instruction_before))]
pub fn should_stop_instruction_before(parser: &Parser, at: Nested, previous: Option<u16>) -> bool
    requires { stands (is DocComment) (drop at.c.pos parser.now.kinds.now) ≡ false }
    ensures { result ≡ should_stop previous at.nesting (drop at.c.pos parser.now.kinds.now) }
{
    at.nesting.is_root()
        && !expects_operand(previous)
        && !punctuation_continues_instruction(parser.current(at.c.pos))
        && at_next(parser, at.c.pos)
}

// Whether an instruction ends before the token here.
#[tactic(auto, using(crate::proofs::At::ends), unfolding(crate::specs::Instruction::instruction_ends))]
fn at_instruction_end(parser: &Parser, at: Nested, previous: Option<u16>) -> bool
    ensures { result ≡ instruction_ends previous at.nesting (drop at.c.pos parser.now.kinds.now) }
{
    let k = parser.current(at.c.pos);
    if k == WHITESPACE {
        return !should_continue_instruction_after_whitespace(parser, at, previous);
    }
    if is_trivia(k) {
        return at.nesting.is_root();
    }
    previous.is_some() && should_stop_instruction_before(parser, at, previous)
}

// Which plain kinds an instruction goes on with behind a token, outside delimiters.
#[tactic(auto, unfolding(crate::specs::Instruction::open_behind))]
fn open_behind(k: u16) -> u64
    ensures { result ≡ open_behind (Some k) }
{
    if expects_continuation_operand(k) {
        PLAIN
    } else {
        PLAIN_PUNCTUATION
    }
}

// Where the first tokens, which are plain, end; and the last of them.
#[derive(Clone, Copy)]
struct Lead {
    c: Cursor,
    previous: Option<u16>,
}

// The first rounds, for as long as one look at the token tells that it is taken and all that it changes is `previous`. Past the last
// token `current` is Tombstone, which is in no set.
fn plain_tokens(parser: &mut Parser, c0: Cursor) -> Lead
    ensures { PlainTokens (entry parser c0) (exit parser result.c) result.previous }
{
    let mut c = c0;
    let mut previous = None;
    let mut mask = PLAIN;
    loop {
        let k = parser.current(c.pos);
        if !in_set(mask, k) {
            return Lead { c, previous };
        }
        c = parser.bump_plain(c, k);
        previous = Some(k);
        mask = open_behind(k);
    }
}

// Whether one or two tokens tell that an instruction ends here, outside delimiters. Mostly they do.
#[tactic(auto, using(crate::proofs::Plain::ends_plainly))]
fn ends_plainly(parser: &Parser, p: usize, previous: Option<u16>) -> bool
    ensures { result ≡ true → instruction_ends previous default (drop p parser.now.kinds.now) ≡ true }
{
    let k = parser.current(p);
    in_set(LINE_END, k)
        || k == WHITESPACE && !expects_operand(previous) && !in_set(GOES_ON, parser.current(p + 1))
}

// The rounds behind the token `previous0`.
fn further_tokens(parser: &mut Parser, c0: Cursor, previous0: Option<u16>) -> Cursor
    ensures { Ran (scan instruction_round (behind previous0)) (entry parser c0) (exit parser result) }
{
    let mut at = Nested {
        c: c0,
        nesting: Nesting::default(),
    };
    let mut previous = previous0;
    while !parser.eof(at.c.pos) && !at_instruction_end(parser, at, previous) {
        let k = parser.current(at.c.pos);
        if is_trivia(k) {
            at.c = parser.bump(at.c);
            continue;
        }
        at = parser.bump_nested(at);
        previous = Some(k);
    }
    at.c
}

fn instruction_tokens(parser: &mut Parser, c0: Cursor) -> Cursor
    ensures { Ran (scan instruction_round before_first) (entry parser c0) (exit parser result) }
{
    let lead = plain_tokens(parser, c0);
    if ends_plainly(parser, lead.c.pos, lead.previous) {
        return lead.c;
    }
    further_tokens(parser, lead.c, lead.previous)
}

pub fn parse_instruction(parser: &mut Parser, c0: Cursor) -> Cursor
    ensures { Ran parse_instruction (entry parser c0) (exit parser result) }
{
    let a = parser.start_node(c0, SyntaxKind::Instruction);
    let b = instruction_tokens(parser, a);
    parser.finish_node(b)
}
