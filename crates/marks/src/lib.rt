// The tokens of a source as the grammar reads them: words are marked in the kinds, and the marks are taken off after the grammar.
#![tactic(auto)]

ghost use Rattle.std.specs.Prelude.{◌≡◌, map, ◌≤◌, length};
ghost use Rattle.std.specs.Option.{option_or};
ghost use Rattle.lexer.specs.Syntax.{kind_number};
ghost use Rattle.lexer.specs.Tokens.{MAX_SOURCE};
ghost use Rattle.grammar.specs.Words.{kind_of};
ghost use Rattle.marks.specs.Code.{marked, refused_at, MarkSource};

use crate::word::word_of;
use grammar::words::{MARK, WHILE, Word};
use lexer::syntax::{IDENT, SyntaxKind};
use lexer::{Lexer, TokenSlices};

mod word;

// How many tokens there are, and where the first Ident `use` or `extern` starts, if there is one.
#[derive(Clone, Copy)]
pub struct Read {
    pub count: usize,
    pub refusal: Option<usize>,
}

// The refusal so far, or else that of a token above the last word, `while`: `use` and `extern`.
fn first_refusal(refusal: Option<usize>, kind: u16, start: usize) -> Option<usize>
    ensures { result ≡ option_or refusal (refused_at kind start) }
{
    if kind <= WHILE {
        refusal
    } else {
        refusal.or(Some(start))
    }
}

// The kind of a token with this text, marked where it is an Ident and a word.
fn mark(kind: SyntaxKind, text: &[u8]) -> u16
    ensures { result ≡ marked (kind_number kind) text.now }
{
    let plain = u16::from(kind);
    match kind {
        SyntaxKind::Ident => word_of(text).map_or(plain, Word::symbol),
        _ => plain,
    }
}

// The lexer's tokens, each marked as it is written, as far as both slices have room; the first refusal is carried along.
pub fn mark_source(source: &[u8], kinds: &mut [u16], ends: &mut [u32]) -> Read
    requires { length source.now ≤ MAX_SOURCE }
    ensures { MarkSource
        source.now kinds.old ends.old
        result kinds.new ends.new }
{
    let mut tokens = TokenSlices {
        kinds,
        ends,
        count: 0,
    };
    let mut refusal = None;
    let mut start = 0;
    for token in Lexer::new(source) {
        let kind = mark(token.kind, &source[start..token.end]);
        refusal = first_refusal(refusal, kind, start);
        tokens.push(kind, token.end as u32);
        start = token.end;
    }
    Read {
        count: tokens.count,
        refusal,
    }
}

// The kind of a token that may be marked.
fn plain(kind: u16) -> u16
    ensures { result ≡ kind_of kind }
{
    if kind < MARK { kind } else { IDENT }
}

// Takes the marks off.
pub fn unmark(kinds: &mut [u16])
    ensures { kinds.new ≡ map kind_of kinds.old }
{
    for kind in kinds.iter_mut() {
        *kind = plain(*kind);
    }
}
