// The slices that tokens are written to.
ghost use Rattle.std.specs.Prelude.{◌≡◌, ◌+◌, ◌<◌, ◌^◌, length, set};
ghost use Rattle.lexer.specs.Slices.{Push};

use room::set_in_room;

// The kinds and the ends of tokens, as far as both slices have room, and how many tokens there were.
#[derive(Drop)]
pub struct TokenSlices<'a> {
    pub kinds: &'a mut [u16],
    pub ends: &'a mut [u32],
    pub count: usize,
}

impl TokenSlices<'_> {
    // A token more: written while there is room in both slices, and counted on.
    pub fn push(&mut self, kind: u16, end: u32)
        requires { self.old.count + 1 < 2 ^ 64 }
        ensures { Push kind end self.old self.new }
    {
        let n = self.count;
        self.count += 1;
        if n < self.kinds.len().min(self.ends.len()) {
            self.kinds[n] = kind;
            self.ends[n] = end;
        }
    }
}

// The token with this index, written where both slices have it; behind their end nothing is. Any index will do.
pub fn put_token(kinds: &mut [u16], ends: &mut [u32], n: usize, kind: u16, end: u32)
    requires { length kinds.old ≡ length ends.old }
    ensures kinds_are { kinds.new ≡ set kinds.old n kind }
    ensures ends_are { ends.new ≡ set ends.old n end }
{
    set_in_room(kinds, n, kind);
    set_in_room(ends, n, end);
}
