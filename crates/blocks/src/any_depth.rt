// Blocks at any depth, one above the limit too. Above the limit, as at it, the next form in a block is rejected, so a block is read at the
// lesser of the two. In a reading each depth is within the limit, as `Depth` says, and nothing here is called.
ghost use Rattle.std.specs.Prelude.{◌≡◌, min};
ghost use Rattle.parser.specs.Rep.{entry, exit};
ghost use Rattle.blocks.specs.Shapes.{stop, any_block_place, ItemAt, AnyBlockRounds, AnyFirstRounds, AnyParseBlock};

use crate::block::parse_block;
use crate::close::BlockEnd;
use crate::place::{BlockPlace, Depth};
use crate::rounds::{Stopped, first_rounds, next_rounds};
use grammar::block::{BlockOwner, Terminators};
use grammar::limit::NestingLimit;
use parser::cursor::Cursor;
use parser::state::Parser;

// How many control forms stand around something, and how many may: any two such numbers.
#[derive(Clone, Copy)]
pub struct AnyDepth {
    pub forms: u16,
    pub limit: NestingLimit,
}

impl AnyDepth {
    // The depth that a block here is read at.
    fn within(self) -> Depth
        ensures { (result.forms ≡ min self.forms self.limit.forms) × (result.limit ≡ self.limit) }
    {
        Depth {
            forms: self.forms.min(self.limit.forms),
            limit: self.limit,
        }
    }
}

#[derive(Clone, Copy)]
pub struct AnyPlace {
    pub depth: AnyDepth,
    pub owner: BlockOwner,
    pub terminators: Terminators,
}

impl AnyPlace {
    fn within(self) -> BlockPlace
        ensures depth { (result.depth.forms ≡ min self.depth.forms self.depth.limit.forms) × (result.depth.limit ≡ self.depth.limit) }
        ensures owner { result.owner ≡ self.owner }
        ensures terminators { result.terminators ≡ self.terminators }
    {
        BlockPlace {
            depth: self.depth.within(),
            owner: self.owner,
            terminators: self.terminators,
        }
    }
}

pub fn parse_block_at_any_depth(
    parser: &mut Parser,
    c0: Cursor,
    owner: BlockOwner,
    terminators: Terminators,
    depth: AnyDepth,
) -> BlockEnd
    ensures { AnyParseBlock (any_block_place owner terminators depth) (entry parser c0) (exit parser result.c) result }
{
    parse_block(parser, c0, owner, terminators, depth.within())
}

// first_rounds, at any depth
pub fn first_rounds_at_any_depth(parser: &mut Parser, c0: Cursor, place: AnyPlace) -> Stopped
    ensures { AnyFirstRounds place (entry parser c0) (exit parser (stop result)) result }
{
    first_rounds(parser, c0, place.within())
}

// next_rounds, at any depth
pub fn next_rounds_at_any_depth(
    parser: &mut Parser,
    c0: Cursor,
    place: AnyPlace,
    item0: bool,
) -> Stopped
    requires { ItemAt parser.old.kinds.now c0.pos item0 }
    ensures { AnyBlockRounds place (entry parser c0) (exit parser (stop result)) result }
{
    next_rounds(parser, c0, place.within(), item0)
}
