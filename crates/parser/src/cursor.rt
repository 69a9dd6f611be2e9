// The cursor goes by value; events and diagnostics are written while there is room, and counted on.
ghost use Rattle.std.specs.Prelude.{◌≡◌, ◌+◌, ◌<◌, ◌^◌};
ghost use Rattle.lexer.specs.Syntax.{kind_number};
ghost use Rattle.grammar.specs.Message.{number as number_of};
ghost use Rattle.grammar.specs.Out.{kind};
ghost use Rattle.parser.specs.Rep.{entry, exit, Wrote, ErrorHere, PlainToken, Bump, BumpPlain};

use crate::state::Parser;
use grammar::event::{CLOSE, ERROR_TOKEN};
use grammar::message::Message;
use grammar::words::MARK;
use lexer::syntax::{ERROR, IDENT, SyntaxKind, WHITESPACE};
use room::set_in_room;

// By value, as docs/DECISIONS.md has it: each step hands back the next. So the loops over tokens go by it, and no iterator does.
#[derive(Clone, Copy, Default)]
pub struct Cursor {
    pub pos: usize,
    pub events: usize,
    pub diags: usize,
}

// A cursor and an answer. No Result: the cursor goes on whatever the answer is, and most callers ask for it alone.
#[derive(Clone, Copy)]
pub struct Flow {
    pub c: Cursor,
    pub ok: bool,
}

// One more. No reading comes to the greatest number (`Small`), so nothing is asked of the caller.
fn one_more(n: usize) -> usize
    ensures { n + 1 < 2 ^ 64 → result ≡ n + 1 }
{
    if n < usize::MAX {
        return n + 1;
    }
    0
}

// The low half; an index that is no greater is itself.
fn low_half(n: usize) -> u32
    ensures { n < 2 ^ 32 → result ≡ n }
{
    (n % 0x1_0000_0000) as u32
}

impl Parser<'_> {
    // One event more.
    pub fn put(&mut self, c: Cursor, v: u16) -> Cursor
        ensures { Wrote v (entry self c) (exit self result) }
    {
        set_in_room(self.events, c.events, v);
        Cursor {
            events: one_more(c.events),
            ..c
        }
    }

    pub fn start_node(&mut self, c: Cursor, kind: SyntaxKind) -> Cursor
        ensures { Wrote (kind_number kind) (entry self c) (exit self result) }
    {
        self.put(c, u16::from(kind))
    }

    pub fn finish_node(&mut self, c: Cursor) -> Cursor
        ensures { Wrote 0 (entry self c) (exit self result) }
    {
        self.put(c, CLOSE)
    }

    // The message, and the index of the token here; past the last token, their number. error_at_eof is the same at the end.
    pub fn error_here(&mut self, c: Cursor, m: Message) -> Cursor
        ensures { ErrorHere (number_of m) (entry self c) (exit self result) }
    {
        set_in_room(self.messages, c.diags, u16::from(m));
        set_in_room(self.starts, c.diags, low_half(c.pos));
        Cursor {
            diags: one_more(c.diags),
            ..c
        }
    }
}

// A token's event: Error's is 60, and a keyword's is Ident's.
fn event_of(k: u16) -> u16
    ensures { result ≡ kind k }
{
    if k < WHITESPACE {
        return ERROR_TOKEN;
    }
    if k < MARK {
        return k;
    }
    IDENT
}

impl Parser<'_> {
    // bump at a token that is not Error, and whose event is v.
    pub fn bump_plain(&mut self, c: Cursor, v: u16) -> Cursor
        requires { PlainToken self.old.kinds.now c.pos v }
        ensures { BumpPlain (entry self c) (exit self result) }
    {
        let next = c.pos + 1;
        let b = self.put(c, v);
        Cursor { pos: next, ..b }
    }

    pub fn bump(&mut self, c: Cursor) -> Cursor
        ensures { Bump (entry self c) (exit self result) }
    {
        let p = c.pos;
        if p < self.kinds.len() {
            let k = self.kinds[p];
            let next = p + 1;
            if k == ERROR {
                let a = self.error_here(c, Message::UnrecognizedToken);
                let b = self.put(a, ERROR_TOKEN);
                return Cursor { pos: next, ..b };
            }
            return self.bump_plain(c, event_of(k));
        }
        c
    }
}
