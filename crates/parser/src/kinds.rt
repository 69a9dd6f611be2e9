// Classes of tokens, by their kinds and words.
ghost use Rattle.std.specs.Prelude.{◌≡◌};
ghost use Rattle.lexer.specs.Syntax.{kind_number};
ghost use Rattle.grammar.specs.Look.{regular_trivia, is_trivia, name_like, is_reserved_block_keyword};
ghost use Rattle.grammar.specs.Look.{expects_continuation_operand as expects_operand, punctuation_continues_instruction as continues};
ghost use Rattle.grammar.specs.Look.{starts_instruction, control_flow};
ghost use Rattle.parser.specs.Sets.{bit, word_bit, trivia_to};
ghost use Rattle.parser.specs.Ahead.{starter};

use crate::sets::{CONTROL_FLOW, NAME, OPERAND, PUNCTUATION, RESERVED, STARTER_KINDS, STARTERS};
use grammar::words::MARK;
use lexer::syntax::{IDENT, SyntaxKind, WHITESPACE};

// The last kind of each set of trivia; the first is Whitespace.
pub const REGULAR_TRIVIA: SyntaxKind = SyntaxKind::Comment;

pub const TRIVIA: SyntaxKind = SyntaxKind::DocComment;

pub const NON_COMMENT_TRIVIA: SyntaxKind = SyntaxKind::Newline;

pub const SPACE: SyntaxKind = SyntaxKind::Whitespace;

// Whether the bit is set.
#[tactic(auto, unfolding(crate::specs::Sets::bit))]
pub fn in_set(mask: u64, k: u16) -> bool
    ensures { result ≡ bit mask k }
{
    if 64 <= k {
        return false;
    }
    (mask >> k) % 2 == 1
}

// Whether k is trivia, up to the kind of number `last`.
#[tactic(auto, unfolding(crate::specs::Sets::trivia_to))]
pub fn is_trivia_up_to(last: u16, k: u16) -> bool
    ensures { result ≡ trivia_to last k }
{
    WHITESPACE <= k && k <= last
}

pub fn is_trivia_to(last: SyntaxKind, k: u16) -> bool
    ensures { result ≡ trivia_to (kind_number last) k }
{
    is_trivia_up_to(u16::from(last), k)
}

// Whitespace, Newline, Comment
#[tactic(auto, using(crate::proofs::Bits::trivia))]
pub fn is_regular_trivia(k: u16) -> bool
    ensures { result ≡ regular_trivia k }
{
    is_trivia_to(REGULAR_TRIVIA, k)
}

// The same and DocComment
#[tactic(auto, using(crate::proofs::Bits::trivia))]
pub fn is_trivia(k: u16) -> bool
    ensures { result ≡ is_trivia k }
{
    is_trivia_to(TRIVIA, k)
}

#[tactic(auto, using(crate::proofs::Bits::operands))]
pub fn expects_continuation_operand(k: u16) -> bool
    ensures { result ≡ expects_operand k }
{
    in_set(OPERAND, k)
}

#[tactic(auto, using(crate::proofs::Bits::punctuation))]
pub fn punctuation_continues_instruction(k: u16) -> bool
    ensures { result ≡ continues k }
{
    in_set(PUNCTUATION, k)
}

// An Ident of any word, a SpecialIdent or a QuotedIdent
#[tactic(auto, using(crate::proofs::Bits::names), unfolding(grammar::specs::Look::name_like))]
pub fn is_name_like(k: u16) -> bool
    ensures { result ≡ name_like k }
{
    MARK <= k || in_set(NAME, k)
}

// Whether a token is an Ident whose word's bit is set.
#[tactic(auto, unfolding(crate::specs::Sets::word_bit))]
pub fn in_words(mask: u64, k: u16) -> bool
    ensures { result ≡ word_bit mask k }
{
    k % MARK == IDENT && in_set(mask, k / MARK)
}

// All words but `package`
#[tactic(auto, using(crate::proofs::Bits::reserved))]
fn is_reserved_block_keyword(k: u16) -> bool
    ensures { result ≡ is_reserved_block_keyword k }
{
    in_words(RESERVED, k)
}

#[tactic(auto, unfolding(grammar::specs::Look::starts_instruction))]
pub fn starts_instruction(k: u16) -> bool
    ensures { result ≡ starts_instruction k }
{
    is_name_like(k) && !is_reserved_block_keyword(k)
}

// A word that starts a control form
#[tactic(auto, using(crate::proofs::Bits::control))]
pub fn is_control_flow(k: u16) -> bool
    ensures { result ≡ control_flow k }
{
    in_words(CONTROL_FLOW, k)
}

// DocComment, At, or a word that starts an item
#[tactic(auto, using(crate::proofs::Bits::starters))]
pub fn starts_item(k: u16) -> bool
    ensures { result ≡ starter k }
{
    in_set(STARTER_KINDS, k) || in_words(STARTERS, k)
}
