// Delimiter counts: parser.rs's Nesting, and what its bump hands back.
ghost use Rattle.std.specs.Prelude.{◌≡◌, ◌<◌, ◌^◌};
ghost use Rattle.grammar.specs.Nesting.{is_root, bump_by, OpensBelow};

use lexer::syntax::{L_BRACE, L_BRACKET, L_PAREN, R_BRACE, R_BRACKET, R_PAREN};

// A closer that has no opener, by its message's number in docs/MESSAGES.md.
#[derive(Debug, Clone, Copy, PartialEq, Eq)]
pub enum Closer {
    Paren = 51,
    Bracket = 52,
    Brace = 53,
}

// How many delimiters of each kind are open.
#[derive(Debug, Clone, Copy, PartialEq, Eq, Default)]
pub struct Nesting {
    pub parens: usize,
    pub brackets: usize,
    pub braces: usize,
}

// By value, as docs/DECISIONS.md has it: a step gives new counts, or the closer that it refuses.
impl Nesting {
    // Field by field, as in the Rust: `==` with the default takes four instructions more at each token of a group. Without the inner
    // parentheses the tests come in an order that takes seven instructions more at a closer that is refused.
    #[tactic(auto, unfolding(crate::specs::Nesting::is_root))]
    pub fn is_root(self) -> bool
        ensures { result ≡ is_root self }
    {
        self.parens == 0 && (self.brackets == 0 && self.braces == 0)
    }

    // What a token of this kind does to the counts.
    #[tactic(auto, unfolding(crate::specs::Nesting::bump_by))]
    pub fn bump(self, kind: u16) -> Result<Nesting, Closer>
        requires { OpensBelow (2 ^ 63) kind self }
        ensures { result ≡ bump_by self kind }
    {
        // By tests: with checked_sub a closer takes two instructions more.
        let mut next = self;
        match kind {
            L_PAREN => next.parens += 1,
            L_BRACKET => next.brackets += 1,
            L_BRACE => next.braces += 1,
            R_PAREN if self.parens == 0 => return Err(Closer::Paren),
            R_PAREN => next.parens -= 1,
            R_BRACKET if self.brackets == 0 => return Err(Closer::Bracket),
            R_BRACKET => next.brackets -= 1,
            R_BRACE if self.braces == 0 => return Err(Closer::Brace),
            R_BRACE => next.braces -= 1,
            _ => {}
        }
        Ok(next)
    }
}
