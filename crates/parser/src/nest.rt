// Delimiter counts in a loop that takes token by token.
ghost use Rattle.std.specs.Prelude.{◌≡◌, false, ◌+◌, ◌^◌, drop};
ghost use Rattle.grammar.specs.Look.{eof};
ghost use Rattle.grammar.specs.Nesting.{NestingBelow};
ghost use Rattle.parser.specs.Rep.{entry, exit};
ghost use Rattle.parser.specs.Counts.{BumpNesting, BumpNested};

use crate::cursor::Cursor;
use crate::state::Parser;
use grammar::message::Message;
use grammar::nesting::Nesting;

// A cursor, and how many delimiters are open there.
#[derive(Clone, Copy)]
pub struct Nested {
    pub c: Cursor,
    pub nesting: Nesting,
}

impl Parser<'_> {
    // A closer without its opener is reported, and leaves the counts as they are.
    pub fn bump_nesting(&mut self, c: Cursor, nesting: Nesting, kind: u16) -> Nested
        requires { NestingBelow (2 ^ 63) nesting }
        ensures { BumpNesting nesting kind (entry self c) (exit self result.c) result.nesting }
    {
        match nesting.bump(kind) {
            Ok(n) => Nested { c, nesting: n },
            Err(x) => {
                let d = self.error_here(c, Message::UnexpectedCloser(x));
                Nested { c: d, nesting }
            }
        }
    }

    // bump_nesting, and bump: the step of four loops, which differ in what they ask of a token and what they keep of it.
    // Inlined: by a call, a token of a group takes up to a third more instructions.
    #[inline(always)]
    pub fn bump_nested(&mut self, at: Nested) -> Nested
        requires token { eof (drop at.c.pos self.old.kinds.now) ≡ false }
        requires below { NestingBelow (at.c.pos + 1) at.nesting }
        ensures { BumpNested at.nesting (entry self at.c) (exit self result.c) result.nesting }
    {
        let k = self.current(at.c.pos);
        let b = self.bump_nesting(at.c, at.nesting, k);
        Nested {
            c: self.bump(b.c),
            nesting: b.nesting,
        }
    }
}
