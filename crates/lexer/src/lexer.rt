// lexer.rs: a method for each shape of token, the iterator, and `tokenize`.
ghost use Rattle.std.specs.Prelude.{◌≡◌, ◌-◌, ◌≤◌, Bool, ℕ, length};
ghost use Rattle.std.specs.Iterator.{at_most};
ghost use Rattle.lexer.specs.Syntax.{kind_number};
ghost use Rattle.lexer.specs.Lexer.{lex_one, follow, lex_while, comment as comment_of, lex_number, zero_led};
ghost use Rattle.lexer.specs.Lexer.{special as special_of, stray as stray_of, dots, next as next_of};
ghost use Rattle.lexer.specs.Code.{Lexed, NextToken, AnswersAs, special_kind};
ghost use Rattle.lexer.specs.Tokens.{MAX_SOURCE, Tokenize};

use crate::chars::{is_binary, is_blank, is_decimal, is_hex};
use crate::class::{Class, class_of, is_word};
use crate::slices::TokenSlices;
use crate::state::Lexer;
use crate::syntax::SyntaxKind;
use crate::syntax::SyntaxKind::{
    Colon, ColonColon, Comment, DocComment, Dot, DotDot, DotDotDot, Error, Ident, Minus, Newline,
    Number, RArrow, Slash, SlashSlash, SpecialIdent, Whitespace,
};

// The most bytes that a source may have.
pub const MAX_SOURCE: usize = 1048576;

#[derive(Debug, Clone, Copy, PartialEq, Eq)]
pub struct Token {
    pub kind: SyntaxKind,
    pub end: usize,
}

// Behind `$` only these two.
#[tactic(auto, using(crate::proofs::Texts::special_spelled, crate::proofs::Texts::none_spelled))]
fn special_kind(text: &[u8]) -> SyntaxKind
    ensures { kind_number result ≡ special_kind text.now }
{
    match text {
        b"kernel" | b"exec" => SpecialIdent,
        _ => Error,
    }
}

// Each goes over what is left of a token, from the offset on, and gives its kind.
impl Lexer<'_> {
    // A run, of a token of this kind.
    fn lex_while<F: Fn(u8) -> bool>(&mut self, kind: SyntaxKind, goes_on: F) -> SyntaxKind
        requires { F.IsAlwaysCallable goes_on }
        ensures { (p : ℕ → Bool) → AnswersAs p (F.post goes_on) → Lexed (lex_while (kind_number kind) p) self.old result self.new }
    {
        self.advance_while(goes_on);
        kind
    }

    // One byte more where it is x.
    fn pair(&mut self, x: u8, longer: SyntaxKind, shorter: SyntaxKind) -> SyntaxKind
        ensures { Lexed (follow x (lex_one (kind_number longer)) (lex_one (kind_number shorter))) self.old result self.new }
    {
        if self.advance_if(x) { longer } else { shorter }
    }

    // lex_trivia, at `#`
    fn comment(&mut self) -> SyntaxKind
        ensures { Lexed comment_of self.old result self.new }
    {
        let doc = self.advance_if(b'!');
        self.line_rest();
        if doc { DocComment } else { Comment }
    }

    // lex_identifier, at `$`
    fn special(&mut self) -> SyntaxKind
        ensures { Lexed special_of self.old result self.new }
    {
        let start = self.offset;
        self.advance_while(is_word);
        special_kind(&self.source[start..self.offset])
    }

    // lex_number behind a first `0`
    fn zero_led(&mut self) -> SyntaxKind
        ensures { Lexed zero_led self.old result self.new }
    {
        match self.source.get(self.offset) {
            Some(b'x' | b'X') => {
                self.offset += 1;
                self.lex_while(Number, is_hex)
            }
            Some(b'b' | b'B') => {
                self.offset += 1;
                self.lex_while(Number, is_binary)
            }
            _ => self.lex_while(Number, is_decimal),
        }
    }

    fn lex_number(&mut self, b: u8) -> SyntaxKind
        ensures { Lexed (lex_number b) self.old result self.new }
    {
        if b == b'0' {
            self.zero_led()
        } else {
            self.lex_while(Number, is_decimal)
        }
    }

    // `.`, `..` and `...`
    fn dot(&mut self) -> SyntaxKind
        ensures { Lexed dots self.old result self.new }
    {
        if self.advance_if(b'.') {
            self.pair(b'.', DotDotDot, DotDot)
        } else {
            Dot
        }
    }

    // A character that starts nothing: all its bytes, as far as the source goes.
    fn stray(&mut self, b: u8) -> SyntaxKind
        ensures { Lexed (stray_of b) self.old result self.new }
    {
        let more = utf8::width(b) - 1;
        self.offset += more.min(self.source.len() - self.offset);
        Error
    }

    // What stands behind a token's first byte.
    fn behind(&mut self, b: u8) -> SyntaxKind
        ensures { Lexed (next_of b) self.old result self.new }
    {
        match class_of(b) {
            Class::Blank => self.lex_while(Whitespace, is_blank),
            Class::Cr => self.newline(),
            Class::Comment => self.comment(),
            Class::Letter => self.lex_while(Ident, is_word),
            Class::Special => self.special(),
            Class::Digit => self.lex_number(b),
            Class::Quote => self.lex_quoted(),
            Class::Colon => self.pair(b':', ColonColon, Colon),
            Class::Dot => self.dot(),
            Class::Minus => self.pair(b'>', RArrow, Minus),
            Class::Slash => self.pair(b'/', SlashSlash, Slash),
            Class::Single(kind) => kind,
            Class::Stray => self.stray(b),
        }
    }
}

impl Iterator for Lexer<'_> {
    type Item = Token;

    ghost next_gives = { NextToken };

    ghost remaining = { λ lexer. at_most (length lexer.source.now - lexer.offset) };

    // Inlined, so that no `Option` goes through memory for each token.
    #[inline(always)]
    fn next(&mut self) -> Option<Token> {
        if self.source.len() <= self.offset {
            return None;
        }
        let b = self.source[self.offset];
        self.offset += 1;
        let kind = self.behind(b);
        let end = self.offset;
        Some(Token { kind, end })
    }
}

// The tokens of a source, written while there is room in both slices, and counted on.
pub fn tokenize(source: &[u8], kinds: &mut [u16], ends: &mut [u32]) -> usize
    requires { length source.now ≤ MAX_SOURCE }
    ensures { Tokenize
        source.now kinds.old ends.old
        result kinds.new ends.new }
{
    let mut tokens = TokenSlices {
        kinds,
        ends,
        count: 0,
    };
    for token in Lexer::new(source) {
        tokens.push(token.kind.into(), token.end as u32);
    }
    tokens.count
}
