// Where a block stands, and which it is.
ghost use Rattle.std.specs.Prelude.{◌≡◌, ◌+◌, ◌≤◌, ◌<◌};

use grammar::block::{BlockOwner, Terminators};
use grammar::limit::NestingLimit;

// How many control forms stand around something, and how many may.
#[derive(Clone, Copy)]
pub struct Depth {
    pub forms: u16,
    pub limit: NestingLimit,
    ghost within: { forms ≤ limit.forms },
}

impl Depth {
    pub(crate) fn deeper(self) -> Depth
        requires { self.forms < self.limit.forms }
        ensures { (result.forms ≡ self.forms + 1) × (result.limit ≡ self.limit) }
    {
        Depth {
            forms: self.forms + 1,
            limit: self.limit,
        }
    }
}

// One small struct, since each frame of the cycle has one.
#[derive(Clone, Copy)]
pub struct BlockPlace {
    pub depth: Depth,
    pub owner: BlockOwner,
    pub terminators: Terminators,
}
