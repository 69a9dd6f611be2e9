// The rounds of parse_block's loop up to its next form. They make no call into the cycle, so their locals stand in none of its frames.
ghost use Rattle.std.specs.Prelude.{◌≡◌, drop};
ghost use Rattle.parser.specs.Rep.{entry, exit};
ghost use Rattle.blocks.specs.declared.arm.BlockArm.TheVariants.{Control};
ghost use Rattle.blocks.specs.Arms.{block_arm};
ghost use Rattle.blocks.specs.Shapes.{stop, ItemAt, BlockRounds, FirstRounds};

use crate::arm::{BlockArm, block_arm_here};
use crate::close::{BlockEnd, close, ended_file};
use crate::place::BlockPlace;
use crate::reject::reject_excessive_control_flow_nesting;
use crate::step::take;
use lexer::syntax::SyntaxKind;
use parser::cursor::Cursor;
use parser::look::Remembered;
use parser::state::Parser;

// Where the rounds stop: at a form, or behind the block's closing event. With a flag beside the fields of both
// a level of the cycle took 32 bytes less (docs/DECISIONS.md, 19), but no fewer instructions.
#[derive(Clone, Copy)]
pub enum Stopped {
    Form(Cursor),
    Closed(BlockEnd),
}

// At a form. Past the limit the rest of the file is rejected, and the block has ended.
fn form_here(parser: &mut Parser, c0: Cursor, place: BlockPlace) -> Stopped
    requires { block_arm place.terminators (drop c0.pos parser.old.kinds.now) ≡ Control }
    ensures { BlockRounds place (entry parser c0) (exit parser (stop result)) result }
{
    if place.depth.limit.forms <= place.depth.forms {
        let d = reject_excessive_control_flow_nesting(parser, c0);
        return Stopped::Closed(ended_file(parser, d));
    }
    Stopped::Form(c0)
}

// Trivia behind what a round took is taken at once, without its tests.
// Where `item0` holds, a form before this ended at an item that starts here. A lookahead remembered before a form holds only
// of trivia before it, so nothing is remembered over a form.
fn rounds(parser: &mut Parser, c0: Cursor, place: BlockPlace, item0: bool) -> Stopped
    requires { ItemAt parser.old.kinds.now c0.pos item0 }
    ensures { BlockRounds place (entry parser c0) (exit parser (stop result)) result }
{
    let mut c = c0;
    let mut item = item0;
    let mut known = Remembered {
        next: 0,
        starts: false,
    };
    loop {
        match block_arm_here(parser, c.pos, place.terminators, &mut known, item) {
            BlockArm::Takes(t) => {
                let d = take(parser, c, t);
                c = parser.bump_regular_trivia(d);
                item = false;
            }
            BlockArm::Closes(k) => {
                return Stopped::Closed(close(parser, c, place.owner, k));
            }
            BlockArm::Control => return form_here(parser, c, place),
        }
    }
}

// The block's opening event, and its rounds up to the first form.
pub fn first_rounds(parser: &mut Parser, c0: Cursor, place: BlockPlace) -> Stopped
    ensures { FirstRounds place (entry parser c0) (exit parser (stop result)) result }
{
    let c = parser.start_node(c0, SyntaxKind::Block);
    rounds(parser, c, place, false)
}

// The rounds behind a form: block_from calls `rounds` through this and first_rounds, since with a call of `rounds` in both places each
// level of the cycle took 48 bytes more.
pub fn next_rounds(parser: &mut Parser, c0: Cursor, place: BlockPlace, item0: bool) -> Stopped
    requires { ItemAt parser.old.kinds.now c0.pos item0 }
    ensures { BlockRounds place (entry parser c0) (exit parser (stop result)) result }
{
    rounds(parser, c0, place, item0)
}
