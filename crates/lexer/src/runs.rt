// Runs of bytes, and what stands at the offset.
ghost use Rattle.std.specs.Prelude.{◌≡◌, ◌+◌, ◌≤◌, cond, Bool, ℕ, true, length, drop};
ghost use Rattle.lexer.specs.Lexer.{advance_while, in_line, cr as newline_of};
ghost use Rattle.lexer.specs.Code.{Lexed, starts_with, Advanced, AdvanceIf, other_than, AllHold, AnswersAs};

use crate::chars::is_in_line;
use crate::state::Lexer;
use crate::syntax::SyntaxKind;

impl Lexer<'_> {
    // Over the run at the offset, a byte at a time.
    fn advance_tail<F: Fn(u8) -> bool>(&mut self, goes_on: F)
        requires { F.IsAlwaysCallable goes_on }
        ensures { (p : ℕ → Bool) → AnswersAs p (F.post goes_on) → Advanced (advance_while p) self.old self.new }
    {
        let rest = &self.source[self.offset..];
        self.offset += rest.iter().position(|b| !goes_on(*b)).unwrap_or(rest.len());
    }

    // Over the run at the offset, with one test of the length for four bytes.
    pub(crate) fn advance_while<F: Fn(u8) -> bool>(&mut self, goes_on: F)
        requires { F.IsAlwaysCallable goes_on }
        ensures { (p : ℕ → Bool) → AnswersAs p (F.post goes_on) → Advanced (advance_while p) self.old self.new }
    {
        // A while: the step is four bytes.
        while 4 <= self.source.len() - self.offset {
            if !goes_on(self.source[self.offset]) {
                return;
            }
            self.offset += 1;
            if !goes_on(self.source[self.offset]) {
                return;
            }
            self.offset += 1;
            if !goes_on(self.source[self.offset]) {
                return;
            }
            self.offset += 1;
            if !goes_on(self.source[self.offset]) {
                return;
            }
            self.offset += 1;
        }
        self.advance_tail(goes_on);
    }

    // Over the rest of the line: advance_while up to a line end, blocks of 16 bytes first.
    pub(crate) fn line_rest(&mut self)
        ensures { Advanced (advance_while in_line) self.old self.new }
    {
        self.offset += blocks_in_line(&self.source[self.offset..]);
        self.advance_while(is_in_line);
    }

    // lex_trivia, at a CR, from behind it: CR LF is one.
    pub(crate) fn newline(&mut self) -> SyntaxKind
        ensures { Lexed newline_of self.old result self.new }
    {
        self.offset = past_byte(self.source, self.offset, b'\n');
        SyntaxKind::Newline
    }

    // if self.current_char() == Some(x) { self.advance_char(); }
    pub(crate) fn advance_if(&mut self, x: u8) -> bool
        ensures { AdvanceIf x self.old result self.new }
    {
        let found = self.source.get(self.offset) == Some(&x);
        if found {
            self.offset += 1;
        }
        found
    }
}

// Past x where it stands. No slice is so long that `min` matters: of the step by it the compiler makes a jump. Of one more alone, as
// advance_if has it, it makes a conditional move, and each token of a file of CR LF waits for the byte before it: half as long again.
fn past_byte(source: &[u8], from: usize, x: u8) -> usize
    requires { from ≤ length source.now }
    ensures moved { result ≡ from + cond (starts_with x (drop from source.now)) 1 0 }
    ensures within { result ≤ length source.now }
{
    if from < source.len() && source[from] == x {
        return (from + 1).min(usize::MAX / 2);
    }
    from
}

// Whether x is none of these bytes. All are looked at, so that the compiler makes one wide comparison of it.
fn none_is(block: &[u8], x: u8) -> bool
    ensures { result ≡ true → AllHold (other_than x) block.now 0 (length block.now) }
{
    let mut none = true;
    for b in block {
        if *b == x {
            none = false;
        }
    }
    none
}

// Whether these bytes have no line end.
fn all_in_line(block: &[u8]) -> bool
    ensures { result ≡ true → AllHold in_line block.now 0 (length block.now) }
{
    none_is(block, b'\n') && none_is(block, b'\r')
}

// How many bytes the blocks of 16 take that stand before the first one with a line end.
fn blocks_in_line(rest: &[u8]) -> usize
    ensures within { result ≤ length rest.now }
    ensures all_passed { advance_while in_line rest.now ≡ result + advance_while in_line (drop result rest.now) }
{
    let mut at = 0;
    for block in rest.chunks_exact(16) {
        if !all_in_line(block) {
            break;
        }
        at += 16;
    }
    at
}
