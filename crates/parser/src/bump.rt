// The small steps: a run of trivia, a token that must be there, a name, a token in an Error node.
ghost use Rattle.std.specs.Prelude.{◌≡◌, true, false, ◌<◌, drop};
ghost use Rattle.lexer.specs.Syntax.{kind_number, Whitespace};
ghost use Rattle.grammar.specs.Words.{MARK, is, key, word_number};
ghost use Rattle.grammar.specs.Look.{at, regular_trivia, non_comment_trivia};
ghost use Rattle.grammar.specs.Run.{when◌then◌else◌, take_token};
ghost use Rattle.grammar.specs.Bump.{nop, bump_while, expect_kind, expect_keyword, expect_name, error_token};
ghost use Rattle.parser.specs.Sets.{trivia_to};
ghost use Rattle.parser.specs.Rep.{entry, exit, Ran, RanTo};

use crate::cursor::{Cursor, Flow};
use crate::kinds::{
    NON_COMMENT_TRIVIA, REGULAR_TRIVIA, SPACE, is_name_like, is_regular_trivia, is_trivia_to,
};
use crate::state::Parser;
use grammar::message::Message;
use grammar::words::Word;
use lexer::syntax::SyntaxKind;

impl Parser<'_> {
    // while the token is trivia up to `last` { bump }. Each such kind is its own event, and `current` past the last token, 0, is none.
    fn bump_while(&mut self, c0: Cursor, last: SyntaxKind) -> Cursor
        ensures ran { Ran (bump_while (trivia_to (kind_number last))) (entry self c0) (exit self result) }
        ensures messages { self.new.messages ≡ self.old.messages }
        ensures starts { self.new.starts ≡ self.old.starts }
    {
        let mut c = c0;
        while is_trivia_to(last, self.current(c.pos)) {
            let k = self.current(c.pos);
            c = self.bump_plain(c, k);
        }
        c
    }

    #[tactic(auto, using(crate::proofs::Bits::all_trivia))]
    pub fn bump_regular_trivia(&mut self, c0: Cursor) -> Cursor
        ensures { Ran (bump_while regular_trivia) (entry self c0) (exit self result) }
    {
        self.bump_while(c0, REGULAR_TRIVIA)
    }

    #[tactic(auto, using(crate::proofs::Bits::all_trivia))]
    pub fn bump_non_comment_trivia(&mut self, c0: Cursor) -> Cursor
        ensures { Ran (bump_while non_comment_trivia) (entry self c0) (exit self result) }
    {
        self.bump_while(c0, NON_COMMENT_TRIVIA)
    }

    #[tactic(auto, using(crate::proofs::Bits::all_trivia))]
    pub fn bump_inline_whitespace(&mut self, c0: Cursor) -> Cursor
        ensures { Ran (bump_while (is Whitespace)) (entry self c0) (exit self result) }
    {
        self.bump_while(c0, SPACE)
    }

    // Whether the token of number k is here, and is not trivia.
    fn stands_here(&self, p: usize, k: u16) -> bool
        ensures here { result ≡ true → at (is k) (drop p self.now.kinds.now) ≡ true }
        ensures no_trivia { result ≡ true → regular_trivia k ≡ false }
    {
        self.at_symbol(p, k) && !is_regular_trivia(k)
    }

    // expect_symbol, where trivia may stand before the token.
    fn expect_behind(&mut self, c0: Cursor, k: u16, m: Message) -> Flow
        ensures { RanTo (expect_kind k m) (entry self c0) (exit self result.c) result.ok }
    {
        let c = self.bump_regular_trivia(c0);
        if self.at_symbol(c.pos, k) {
            return Flow {
                c: self.bump(c),
                ok: true,
            };
        }
        Flow {
            c: self.error_here(c, m),
            ok: false,
        }
    }

    // expect_kind and expect_keyword, of a token by its number. Mostly it is here. Inlined: by a call from expect_kind a file of attributes
    // takes an eighth more instructions.
    #[inline(always)]
    pub fn expect_symbol(&mut self, c0: Cursor, k: u16, m: Message) -> Flow
        ensures { RanTo (expect_kind k m) (entry self c0) (exit self result.c) result.ok }
    {
        if self.stands_here(c0.pos, k) {
            return Flow {
                c: self.bump(c0),
                ok: true,
            };
        }
        self.expect_behind(c0, k, m)
    }

    pub fn expect_kind(&mut self, c0: Cursor, kind: SyntaxKind, m: Message) -> Flow
        ensures { RanTo (expect_kind (kind_number kind) m) (entry self c0) (exit self result.c) result.ok }
    {
        self.expect_symbol(c0, u16::from(kind), m)
    }

    // Inlined: mostly the word is here, and the frame of the cycle of blocks then has no room for a call's arguments.
    #[inline(always)]
    pub fn expect_keyword(&mut self, c0: Cursor, keyword: Word, m: Message) -> Flow
        ensures { RanTo (expect_keyword (key (word_number keyword)) m) (entry self c0) (exit self result.c) result.ok }
    {
        if self.at_keyword(c0.pos, keyword) {
            return Flow {
                c: self.bump(c0),
                ok: true,
            };
        }
        self.expect_behind(c0, keyword.symbol(), m)
    }

    // A name, or a diagnostic.
    pub fn expect_name(&mut self, c0: Cursor, m: Message) -> Cursor
        ensures { Ran (expect_name m) (entry self c0) (exit self result) }
    {
        if is_name_like(self.current(c0.pos)) {
            return self.bump(c0);
        }
        self.error_here(c0, m)
    }

    // An Error node around one token, with a diagnostic.
    pub fn error_token(&mut self, c0: Cursor, m: Message) -> Cursor
        ensures { Ran (error_token m) (entry self c0) (exit self result) }
    {
        let a = self.start_node(c0, SyntaxKind::Error);
        let b = self.error_here(a, m);
        let d = self.bump(b);
        self.finish_node(d)
    }

    // if at_kind(k) { bump }, of a token by its number. The other such tests have their step between the braces too: a call with a
    // closure is no shorter.
    pub fn bump_at_symbol(&mut self, c0: Cursor, k: u16) -> Cursor
        ensures { Ran (when at (is k) then take_token else nop) (entry self c0) (exit self result) }
    {
        if self.at_symbol(c0.pos, k) {
            return self.bump(c0);
        }
        c0
    }

    pub fn bump_at(&mut self, c0: Cursor, kind: SyntaxKind) -> Cursor
        ensures { Ran (when at (is (kind_number kind)) then take_token else nop) (entry self c0) (exit self result) }
    {
        self.bump_at_symbol(c0, u16::from(kind))
    }
}
