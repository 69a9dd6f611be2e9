// Loops of rounds.
ghost use Rattle.grammar.specs.Run.{P, loop};
ghost use Rattle.parser.specs.Rep.{entry, exit, Ran};
ghost use Rattle.parser.specs.Rounds.{RoundOf};

use crate::cursor::{Cursor, Flow};
use crate::state::Parser;

impl Parser<'_> {
    // loop { .. }: each round says whether there is another, and takes a token where there is.
    #[inline(always)]
    pub fn repeat<F: Fn(&mut Parser<'_>, Cursor) -> Flow>(&mut self, c0: Cursor, round: F) -> Cursor
        requires callable { F.IsAlwaysCallable round }
        requires rounds { (f : P _) × RoundOf f (F.post round) }
        ensures { (f : P _) → RoundOf f (F.post round) → Ran (loop f) (entry self c0) (exit self result) }
    {
        let mut c = c0;
        loop {
            let s = round(self, c);
            if !s.ok {
                return s.c;
            }
            c = s.c;
        }
    }
}
