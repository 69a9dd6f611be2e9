// Blocks and the four control forms call each other in a cycle; each call has fewer tokens left, or as many in a later function.
// The compiler makes one frame of them. To keep it small, the forms call the cycle by `inner_block` alone, whose arguments then share
// their places, and a form's second block takes the place of its first.
ghost use Rattle.std.specs.Prelude.{◌≡◌, true, drop};
ghost use Rattle.grammar.specs.Words.{is, DO as do_word, IF as if_word, REPEAT as repeat_word, WHILE as while_word};
ghost use Rattle.grammar.specs.Look.{at, control_flow};
ghost use Rattle.grammar.specs.Block.{parse_block, parse_if, parse_while, parse_do_while, parse_repeat};
ghost use Rattle.grammar.specs.Block.{parse_control_flow};
ghost use Rattle.parser.specs.Rep.{entry, exit};
ghost use Rattle.blocks.specs.Shapes.{block_place, ParseBlock, ParseForm};

use crate::close::{BlockEnd, Form, ended_file, finish, found_terminator, goes_to_else};
use crate::header::{do_header, header, keyword_line};
use crate::place::{BlockPlace, Depth};
use crate::rounds::{Stopped, first_rounds, next_rounds};
use grammar::block::{BlockOwner, Terminators};
use grammar::words::{DO, IF, WHILE, Word};
use lexer::syntax::SyntaxKind;
use parser::cursor::Cursor;
use parser::state::Parser;

// Where a block begins, and which it is: the arguments of `block_from`, which a frame then holds in one place.
#[derive(Clone, Copy)]
struct Start {
    c: Cursor,
    place: BlockPlace,
}

pub fn parse_block(
    parser: &mut Parser,
    c0: Cursor,
    owner: BlockOwner,
    terminators: Terminators,
    depth: Depth,
) -> BlockEnd
    ensures { ParseBlock (block_place owner terminators depth) (entry parser c0) (exit parser result.c) result }
{
    let place = BlockPlace {
        depth,
        owner,
        terminators,
    };
    block_from(parser, Start { c: c0, place })
}

// A block: parse_block calls this from outside the cycle, inner_block from inside.
#[cycle(forms)]
fn block_from(parser: &mut Parser, start: Start) -> BlockEnd
    ensures { ParseBlock start.place (entry parser start.c) (exit parser result.c) result }
{
    let place = start.place;
    let mut s = first_rounds(parser, start.c, place);
    loop {
        match s {
            Stopped::Closed(end) => return end,
            Stopped::Form(c) => {
                let f = parse_control_flow(parser, c, place.depth.deeper());
                if f.eof {
                    return ended_file(parser, f.c);
                }
                s = next_rounds(parser, f.c, place, f.item);
            }
        }
    }
}

// The form that starts here.
#[cycle(forms)]
fn parse_control_flow(parser: &mut Parser, c0: Cursor, depth: Depth) -> Form
    requires { at control_flow (drop c0.pos parser.old.kinds.now) ≡ true }
    ensures { ParseForm (parse_control_flow (parse_block depth.limit.forms) depth.forms) (entry parser c0) (exit parser result.c) result }
{
    match parser.current(c0.pos) {
        IF => parse_if(parser, c0, depth),
        DO => parse_do_while(parser, c0, depth),
        WHILE => parse_while(parser, c0, depth),
        _ => parse_repeat(parser, c0, depth),
    }
}

// A block inside a form. All calls of the forms go through here, so that a frame has room for the arguments of one. parse_block has
// the same body: with a call of it in this one's place each level of the cycle took 112 bytes more, where the rounds stopped with
// a flag and not with an enum.
#[cycle(forms)]
fn inner_block(
    parser: &mut Parser,
    c0: Cursor,
    owner: BlockOwner,
    terminators: Terminators,
    depth: Depth,
) -> BlockEnd
    ensures { ParseBlock (block_place owner terminators depth) (entry parser c0) (exit parser result.c) result }
{
    let place = BlockPlace {
        depth,
        owner,
        terminators,
    };
    block_from(parser, Start { c: c0, place })
}

#[cycle(forms)]
fn parse_if(parser: &mut Parser, c0: Cursor, depth: Depth) -> Form
    requires { at (is if_word) (drop c0.pos parser.old.kinds.now) ≡ true }
    ensures { ParseForm (parse_if (parse_block depth.limit.forms) depth.forms) (entry parser c0) (exit parser result.c) result }
{
    let h = header(parser, c0, SyntaxKind::IfOp, Word::If);
    let mut b = inner_block(parser, h, BlockOwner::If, Terminators::ElseEnd, depth);
    if goes_to_else(parser, b.c.pos, b.outcome) {
        let line = keyword_line(parser, b.c, Word::Else);
        b = inner_block(parser, line, BlockOwner::If, Terminators::End, depth);
    }
    finish(parser, b, BlockOwner::If)
}

// This and parse_repeat have one shape, and keep the names of the Rust's functions.
#[cycle(forms)]
fn parse_while(parser: &mut Parser, c0: Cursor, depth: Depth) -> Form
    requires { at (is while_word) (drop c0.pos parser.old.kinds.now) ≡ true }
    ensures { ParseForm (parse_while (parse_block depth.limit.forms) depth.forms) (entry parser c0) (exit parser result.c) result }
{
    let h = header(parser, c0, SyntaxKind::WhileOp, Word::While);
    let b = inner_block(parser, h, BlockOwner::While, Terminators::End, depth);
    finish(parser, b, BlockOwner::While)
}

#[cycle(forms)]
fn parse_do_while(parser: &mut Parser, c0: Cursor, depth: Depth) -> Form
    requires { at (is do_word) (drop c0.pos parser.old.kinds.now) ≡ true }
    ensures { ParseForm (parse_do_while (parse_block depth.limit.forms) depth.forms) (entry parser c0) (exit parser result.c) result }
{
    let h = do_header(parser, c0);
    let mut b = inner_block(
        parser,
        h,
        BlockOwner::DoWhileBody,
        Terminators::While,
        depth,
    );
    // The body of a `do` that was closed stands before its `while`.
    if found_terminator(b.outcome) {
        let line = keyword_line(parser, b.c, Word::While);
        b = inner_block(parser, line, BlockOwner::DoWhile, Terminators::End, depth);
    }
    finish(parser, b, BlockOwner::DoWhile)
}

#[cycle(forms)]
fn parse_repeat(parser: &mut Parser, c0: Cursor, depth: Depth) -> Form
    requires { at (is repeat_word) (drop c0.pos parser.old.kinds.now) ≡ true }
    ensures { ParseForm (parse_repeat (parse_block depth.limit.forms) depth.forms) (entry parser c0) (exit parser result.c) result }
{
    let h = header(parser, c0, SyntaxKind::RepeatOp, Word::Repeat);
    let b = inner_block(parser, h, BlockOwner::Repeat, Terminators::End, depth);
    finish(parser, b, BlockOwner::Repeat)
}
