// What a round of parse_block's loop does, by the token here.
ghost use Rattle.std.specs.Prelude.{◌≡◌, drop};
ghost use Rattle.parser.specs.Ahead.{DocKnown};
ghost use Rattle.blocks.specs.Arms.{block_arm, inner_arm};
ghost use Rattle.blocks.specs.Shapes.{ItemAt};

use grammar::block::Terminators;
use lexer::syntax::{DOC_COMMENT, IDENT};
use parser::kinds::{is_control_flow, is_regular_trivia, starts_instruction};
use parser::look::Remembered;
use parser::state::Parser;

// The arms are values, and no closures: what arm a round takes is proved of the definition's tests, in another order than the code's.

// Tokens are taken, and there is another round.
#[derive(Clone, Copy)]
pub enum Taken {
    Trivia,
    Doc,
    Instruction,
    Bad,
}

// The loop ends.
#[derive(Clone, Copy)]
pub enum Closing {
    Eof,
    Terminator,
    StrayElse,
    Item,
}

#[derive(Clone, Copy)]
pub enum BlockArm {
    Takes(Taken),
    Closes(Closing),
    Control,
}

// The tests behind those of `block_arm_here`. Where `item` holds, a block inside ended at an item that starts here. `known` is what is
// remembered of the lookahead behind doc comments.
#[tactic(auto, using(crate::proofs::Tests::inner), unfolding(crate::specs::Arms::inner_arm))]
fn inner_arm(parser: &Parser, p: usize, known: &mut Remembered, item: bool) -> BlockArm
    requires known { DocKnown parser.now.kinds.now p known.old }
    requires item { ItemAt parser.now.kinds.now p item }
    ensures arm { result ≡ inner_arm (drop p parser.now.kinds.now) }
    ensures known { DocKnown parser.now.kinds.now p known.new }
{
    if item {
        return BlockArm::Closes(Closing::Item);
    }
    let k = parser.current(p);
    if k == DOC_COMMENT {
        *known = parser.starts_behind_doc(p, *known);
        if known.starts {
            return BlockArm::Closes(Closing::Item);
        }
        return BlockArm::Takes(Taken::Doc);
    }
    if parser.is_top_level_starter(p) {
        return BlockArm::Closes(Closing::Item);
    }
    if is_control_flow(k) {
        return BlockArm::Control;
    }
    if starts_instruction(k) {
        return BlockArm::Takes(Taken::Instruction);
    }
    BlockArm::Takes(Taken::Bad)
}

// The tests of a round. Trivia and identifiers that are no words are met most, and are neither the end of the file nor a
// terminator nor a form's or an item's start, so they are tested first.
#[tactic(auto, using(crate::proofs::Tests::outer), unfolding(crate::specs::Arms::block_arm))]
pub fn block_arm_here(
    parser: &Parser,
    p: usize,
    terminators: Terminators,
    known: &mut Remembered,
    item: bool,
) -> BlockArm
    requires known { DocKnown parser.now.kinds.now p known.old }
    requires item { ItemAt parser.now.kinds.now p item }
    ensures arm { result ≡ block_arm terminators (drop p parser.now.kinds.now) }
    ensures known { DocKnown parser.now.kinds.now p known.new }
{
    let k = parser.current(p);
    if is_regular_trivia(k) {
        return BlockArm::Takes(Taken::Trivia);
    }
    if k == IDENT {
        return BlockArm::Takes(Taken::Instruction);
    }
    if parser.eof(p) {
        return BlockArm::Closes(Closing::Eof);
    }
    if parser.at_terminator(p, terminators) {
        return BlockArm::Closes(Closing::Terminator);
    }
    if parser.at_stray_else(p, terminators) {
        return BlockArm::Closes(Closing::StrayElse);
    }
    inner_arm(parser, p, known, item)
}
