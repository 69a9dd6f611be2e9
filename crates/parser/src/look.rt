// Lookahead. A place in the file is a token's index; what the definitions call the list that is left starts there.
ghost use Rattle.std.specs.Prelude.{◌≡◌, true, drop};
ghost use Rattle.lexer.specs.Syntax.{kind_number, Whitespace, Newline, DocComment, RParen};
ghost use Rattle.grammar.specs.Words.{is, key, word_number};
ghost use Rattle.grammar.specs.Look.{regular_trivia, is_trivia, non_comment_trivia, at, current as current_of, eof as eof_of};
ghost use Rattle.grammar.specs.Look.{skip as skip_of, past, anyone};
ghost use Rattle.grammar.specs.Look.{next_token_after_visibility as after_visibility, is_top_level_starter as starter_of};
ghost use Rattle.grammar.specs.Look.{at_bare_while as bare_while, at_terminator, at_stray_else as stray_else};
ghost use Rattle.grammar.specs.Look.{line_break_starts_new_top_level_item as line_break_starts};
ghost use Rattle.grammar.specs.Look.{at_top_level_form_starter_in_block as starter_in_block};
ghost use Rattle.parser.specs.Sets.{trivia_to};
ghost use Rattle.parser.specs.Ahead.{Found, declared as declared_of, BreakKnown, DocKnown};

use crate::kinds::{
    NON_COMMENT_TRIVIA, REGULAR_TRIVIA, SPACE, TRIVIA, in_words, is_trivia_up_to, starts_item,
};
use crate::sets::DECLARED;
use crate::state::Parser;
use grammar::block::Terminators;
use grammar::words::{PUB, Word};
use lexer::syntax::SyntaxKind;
use lexer::syntax::SyntaxKind::{Dot, LParen, RParen};

// How far a lookahead over trivia went, and whether an item starts there: it holds of each place before `next`.
// A flag beside a value, and no enum: `next` says for which places the flag holds, whichever it is. What is known of it speaks of a file
// and a place, so it stands in the contracts and in no ghost field.
#[derive(Clone, Copy)]
pub struct Remembered {
    pub next: usize,
    pub starts: bool,
}

impl Parser<'_> {
    #[tactic(auto, using(crate::proofs::Laws::eof_is))]
    pub fn eof(&self, p: usize) -> bool
        ensures { result ≡ eof_of (drop p self.now.kinds.now) }
    {
        self.kinds.len() <= p
    }

    // The token here; past the last one Tombstone, as in the definition. No Option: with Tombstone each test of it is one comparison. An
    // Option is not tried.
    #[tactic(auto, using(crate::proofs::Laws::current_in, crate::proofs::Laws::current_out))]
    pub fn current(&self, p: usize) -> u16
        ensures { result ≡ current_of (drop p self.now.kinds.now) }
    {
        if p < self.kinds.len() {
            return self.kinds[p];
        }
        SyntaxKind::Tombstone as u16
    }

    // A plain kind, or an Ident that is a word, by its number.
    #[tactic(auto, using(crate::proofs::Laws::at_in, crate::proofs::Laws::at_out))]
    pub fn at_symbol(&self, p: usize, k: u16) -> bool
        ensures { result ≡ at (is k) (drop p self.now.kinds.now) }
    {
        p < self.kinds.len() && k == self.kinds[p]
    }

    pub fn at_kind(&self, p: usize, kind: SyntaxKind) -> bool
        ensures { result ≡ at (is (kind_number kind)) (drop p self.now.kinds.now) }
    {
        self.at_symbol(p, u16::from(kind))
    }

    pub fn at_keyword(&self, p: usize, keyword: Word) -> bool
        ensures { result ≡ at (is (key (word_number keyword))) (drop p self.now.kinds.now) }
    {
        self.at_symbol(p, keyword.symbol())
    }

    // The first token from p on that is not trivia up to the kind of number `last`.
    #[tactic(auto, using(crate::proofs::Laws::skips))]
    pub fn skip_up_to(&self, last: u16, p: usize) -> usize
        ensures { Found self.now.kinds.now p result (skip_of (trivia_to last) (drop p self.now.kinds.now)) }
    {
        // A while: a `for`, with the greater of p and the length behind it, takes a twentieth more where trivia is looked through.
        let mut i = p;
        while i < self.kinds.len() {
            if !is_trivia_up_to(last, self.kinds[i]) {
                return i;
            }
            i += 1;
        }
        i
    }

    pub fn skip(&self, last: SyntaxKind, p: usize) -> usize
        ensures { Found self.now.kinds.now p result (skip_of (trivia_to (kind_number last)) (drop p self.now.kinds.now)) }
    {
        self.skip_up_to(u16::from(last), p)
    }

    #[tactic(auto, using(crate::proofs::Bits::all_trivia))]
    pub fn next_relevant_top_level_token(&self, p: usize) -> usize
        ensures { Found self.now.kinds.now p result (skip_of regular_trivia (drop p self.now.kinds.now)) }
    {
        self.skip(REGULAR_TRIVIA, p)
    }

    #[tactic(auto, using(crate::proofs::Bits::all_trivia))]
    pub fn next_relevant_block_token(&self, p: usize) -> usize
        ensures { Found self.now.kinds.now p result (skip_of is_trivia (drop p self.now.kinds.now)) }
    {
        self.skip(TRIVIA, p)
    }

    #[tactic(auto, using(crate::proofs::Bits::all_trivia))]
    pub fn peek_after_inline_whitespace(&self, p: usize) -> usize
        ensures { Found self.now.kinds.now p result (skip_of (is Whitespace) (drop p self.now.kinds.now)) }
    {
        self.skip(SPACE, p)
    }

    #[tactic(auto, using(crate::proofs::Bits::all_trivia))]
    pub fn peek_after_non_comment_trivia(&self, p: usize) -> usize
        ensures { Found self.now.kinds.now p result (skip_of non_comment_trivia (drop p self.now.kinds.now)) }
    {
        self.skip(NON_COMMENT_TRIVIA, p)
    }

    // Inside the parentheses of a visibility: any one token, the closer, and then the token after it.
    #[tactic(auto, using(crate::proofs::Ahead::inside))]
    fn after_inside(&self, p: usize) -> usize
        ensures { Found self.now.kinds.now p result (skip_of regular_trivia
            (past (is RParen) (skip_of regular_trivia (past anyone (drop p self.now.kinds.now))))) }
    {
        if self.eof(p) {
            return p;
        }
        let closer = self.next_relevant_top_level_token(p + 1);
        if !self.at_kind(closer, RParen) {
            return self.kinds.len();
        }
        self.next_relevant_top_level_token(closer + 1)
    }

    // Of the list behind `pub`, which starts at p.
    #[tactic(auto, using(crate::proofs::Ahead::one_on), unfolding(grammar::specs::Look::next_token_after_visibility))]
    pub fn next_token_after_visibility(&self, p: usize) -> usize
        ensures { Found self.now.kinds.now p result (after_visibility (drop p self.now.kinds.now)) }
    {
        let next = self.next_relevant_top_level_token(p);
        if !self.at_kind(next, LParen) {
            return next;
        }
        let inside = self.next_relevant_top_level_token(next + 1);
        self.after_inside(inside)
    }

    // The token here or, at `pub`, the one behind the visibility: what says which declaration starts here.
    #[tactic(auto, using(crate::proofs::Ahead::declaration))]
    pub fn declared(&self, p: usize) -> u16
        ensures { result ≡ declared_of (drop p self.now.kinds.now) }
    {
        let k = self.current(p);
        if k == PUB {
            return self.current(self.next_token_after_visibility(p + 1));
        }
        k
    }

    #[tactic(auto, using(crate::proofs::Ahead::starts))]
    pub fn is_top_level_starter(&self, p: usize) -> bool
        ensures { result ≡ starter_of (drop p self.now.kinds.now) }
    {
        let k = self.current(p);
        if k == PUB {
            return in_words(DECLARED, self.declared(p));
        }
        starts_item(k)
    }

    #[tactic(auto, using(crate::proofs::Ahead::one_on), unfolding(grammar::specs::Look::at_bare_while))]
    pub fn at_bare_while(&self, p: usize) -> bool
        ensures { result ≡ bare_while (drop p self.now.kinds.now) }
    {
        self.at_keyword(p, Word::While) && !self.at_kind(p + 1, Dot)
    }

    #[tactic(auto, using(crate::proofs::Ahead::at_either), unfolding(grammar::specs::Look::at_terminator))]
    pub fn at_terminator(&self, p: usize, terminators: Terminators) -> bool
        ensures { result ≡ at_terminator terminators (drop p self.now.kinds.now) }
    {
        match terminators {
            Terminators::End => self.at_keyword(p, Word::End),
            Terminators::ElseEnd => self.at_keyword(p, Word::Else) || self.at_keyword(p, Word::End),
            Terminators::While => self.at_bare_while(p),
        }
    }

    // block_recovery_boundary's test for `else`
    #[tactic(auto, unfolding(grammar::specs::Look::at_stray_else))]
    pub fn at_stray_else(&self, p: usize, terminators: Terminators) -> bool
        ensures { result ≡ stray_else terminators (drop p self.now.kinds.now) }
    {
        match terminators {
            Terminators::End | Terminators::While => self.at_keyword(p, Word::Else),
            Terminators::ElseEnd => false,
        }
    }

    // At a newline. A run of trivia is looked through once: what is known is handed back. One function for this and `starts_behind_doc`
    // would take the trivia, the question and the definition of both, and be no plainer.
    #[tactic(auto, using(crate::proofs::Ahead::remembers))]
    pub fn line_break_starts_new_top_level_item(&self, p: usize, known: Remembered) -> Remembered
        requires here { at (is Newline) (drop p self.now.kinds.now) ≡ true }
        requires known { BreakKnown self.now.kinds.now p known }
        ensures starts { result.starts ≡ line_break_starts (drop p self.now.kinds.now) }
        ensures known { BreakKnown self.now.kinds.now p result }
    {
        if p < known.next {
            return known;
        }
        let next = self.next_relevant_top_level_token(p + 1);
        let starts = self.eof(next) || self.is_top_level_starter(next);
        Remembered { next, starts }
    }

    // at_top_level_form_starter_in_block at a doc comment, in the same way.
    #[tactic(auto, using(crate::proofs::Ahead::remembers))]
    pub fn starts_behind_doc(&self, p: usize, known: Remembered) -> Remembered
        requires { (at (is DocComment) (drop p self.now.kinds.now) ≡ true) × DocKnown self.now.kinds.now p known }
        ensures { (result.starts ≡ starter_in_block (drop p self.now.kinds.now)) × DocKnown self.now.kinds.now p result }
    {
        if p < known.next {
            return known;
        }
        let next = self.next_relevant_block_token(p + 1);
        Remembered {
            next,
            starts: self.is_top_level_starter(next),
        }
    }
}
