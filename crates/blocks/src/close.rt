// How a block ends, and a form after its last block.
ghost use Rattle.std.specs.Prelude.{◌≡◌, false, not, ◌&&◌, drop};
ghost use Rattle.grammar.specs.Words.{is, ELSE as else_word};
ghost use Rattle.grammar.specs.Look.{at};
ghost use Rattle.grammar.specs.Block.{found_terminator, reached_eof, closing};
ghost use Rattle.grammar.specs.declared.block.BlockParseOutcome.TheVariants.{ReachedEof};
ghost use Rattle.parser.specs.Rep.{entry, exit, Wrote, Ran};
ghost use Rattle.blocks.specs.Shapes.{Recover, BlockEnding, Close, Finish, ItemAt};

use crate::arm::Closing;
use grammar::block::{BlockOwner, BlockParseOutcome, BlockRecoveryBoundary};
use grammar::message::Message;
use grammar::words::Word;
use lexer::syntax::SyntaxKind;
use parser::cursor::Cursor;
use parser::state::Parser;

// A block's end; `item` says that an item is known to start here. That speaks of the file too, so no ghost field says it (`ItemAt`).
#[derive(Clone, Copy)]
pub struct BlockEnd {
    pub c: Cursor,
    pub outcome: BlockParseOutcome,
    pub item: bool,
}

// A form's end, and whether the file ended in it: the Rust's answer, beside the cursor that goes on either way.
#[derive(Clone, Copy)]
pub struct Form {
    pub c: Cursor,
    pub eof: bool,
    pub item: bool,
}

// The empty Error node of a recovery.
fn recover(
    parser: &mut Parser,
    c0: Cursor,
    owner: BlockOwner,
    boundary: BlockRecoveryBoundary,
) -> Cursor
    ensures { Recover owner boundary (entry parser c0) (exit parser result) }
{
    let a = parser.start_node(c0, SyntaxKind::Error);
    let b = parser.error_here(a, Message::Recovery(owner, boundary));
    parser.finish_node(b)
}

// What ends the loop is reported, and says how the block has ended.
fn block_ending(
    parser: &mut Parser,
    c0: Cursor,
    owner: BlockOwner,
    k: Closing,
) -> (Cursor, BlockParseOutcome)
    ensures { BlockEnding k owner (entry parser c0) (exit parser result.0) result.1 }
{
    match k {
        Closing::Eof => {
            let c = parser.error_here(c0, Message::MissingEnd(owner));
            (c, BlockParseOutcome::ReachedEof)
        }
        Closing::Terminator => (c0, BlockParseOutcome::FoundTerminator),
        Closing::StrayElse => {
            let c = recover(parser, c0, owner, BlockRecoveryBoundary::Else);
            (c, BlockParseOutcome::RecoveredImplicitEnd)
        }
        Closing::Item => {
            let c = recover(parser, c0, owner, BlockRecoveryBoundary::TopLevelItem);
            (c, BlockParseOutcome::RecoveredImplicitEnd)
        }
    }
}

// A round that ends the loop, and the block's closing event.
pub fn close(parser: &mut Parser, c0: Cursor, owner: BlockOwner, k: Closing) -> BlockEnd
    ensures { Close k owner (entry parser c0) (exit parser result.c) result }
{
    let (c, outcome) = block_ending(parser, c0, owner, k);
    BlockEnd {
        c: parser.finish_node(c),
        outcome,
        item: matches!(k, Closing::Item),
    }
}

// The closing event of a block in which the file ended.
pub fn ended_file(parser: &mut Parser, c0: Cursor) -> BlockEnd
    ensures wrote { Wrote 0 (entry parser c0) (exit parser result.c) }
    ensures outcome { result.outcome ≡ ReachedEof }
    ensures item { result.item ≡ false }
{
    BlockEnd {
        c: parser.finish_node(c0),
        outcome: BlockParseOutcome::ReachedEof,
        item: false,
    }
}

// if outcome == FoundTerminator { expect_keyword("end", owner.missing_end_message()) }
pub fn closing(
    parser: &mut Parser,
    c0: Cursor,
    owner: BlockOwner,
    outcome: BlockParseOutcome,
) -> Cursor
    ensures { Ran (closing owner outcome) (entry parser c0) (exit parser result) }
{
    if found_terminator(outcome) {
        return parser
            .expect_keyword(c0, Word::End, Message::MissingEnd(owner))
            .c;
    }
    c0
}

// After a form's last block: its `end` where there is one, and the form's closing event.
pub fn finish(parser: &mut Parser, b: BlockEnd, owner: BlockOwner) -> Form
    requires { ItemAt parser.old.kinds.now b.c.pos b.item }
    ensures { Finish owner b.outcome (entry parser b.c) (exit parser result.c) result }
{
    let c = closing(parser, b.c, owner, b.outcome);
    Form {
        c: parser.finish_node(c),
        eof: reached_eof(b.outcome),
        item: b.item && !found_terminator(b.outcome),
    }
}

pub fn found_terminator(outcome: BlockParseOutcome) -> bool
    ensures { result ≡ found_terminator outcome }
{
    matches!(outcome, BlockParseOutcome::FoundTerminator)
}

fn reached_eof(outcome: BlockParseOutcome) -> bool
    ensures { result ≡ reached_eof outcome }
{
    matches!(outcome, BlockParseOutcome::ReachedEof)
}

// Whether an `else` follows the block of an `if`.
pub fn goes_to_else(parser: &Parser, p: usize, outcome: BlockParseOutcome) -> bool
    ensures { result ≡ (not (reached_eof outcome) && at (is else_word) (drop p parser.now.kinds.now)) }
{
    !reached_eof(outcome) && parser.at_keyword(p, Word::Else)
}
