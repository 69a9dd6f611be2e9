// Which item starts at a token.
ghost use Rattle.std.specs.Prelude.{◌≡◌, drop};
ghost use Rattle.items.specs.Arms.{item_arm, declaration_arm, word_arm, plain_arm};

use grammar::words::{ADV_MAP, BEGIN, CONST, ENUM, MARK, MOD, NAMESPACE_WORD, PROC, PUB, TYPE};
use lexer::syntax::{AT, DOC_COMMENT};
use parser::kinds::is_regular_trivia;
use parser::state::Parser;

// The arms of parse_source_item, as values: the tests find the arm in another order than the definition's.
#[derive(Clone, Copy)]
pub enum ItemArm {
    Doc,
    Trivia,
    Namespace,
    Submodule,
    Procedure,
    Begin,
    Constant,
    Type,
    AdviceMap,
    Bad,
}

// The declaration that a keyword starts, alone or behind `pub`.
#[tactic(auto, unfolding(crate::specs::Arms::declaration_arm))]
fn declaration_arm(d: u16) -> ItemArm
    ensures { result ≡ declaration_arm d }
{
    match d {
        MOD => ItemArm::Submodule,
        PROC => ItemArm::Procedure,
        CONST => ItemArm::Constant,
        TYPE | ENUM => ItemArm::Type,
        _ => ItemArm::Bad,
    }
}

// At a word that is not `pub`.
#[tactic(auto, unfolding(crate::specs::Arms::word_arm))]
fn word_arm(k: u16) -> ItemArm
    ensures { result ≡ word_arm k }
{
    match k {
        NAMESPACE_WORD => ItemArm::Namespace,
        BEGIN => ItemArm::Begin,
        ADV_MAP => ItemArm::AdviceMap,
        _ => declaration_arm(k),
    }
}

// At a token that is no word.
#[tactic(auto, unfolding(crate::specs::Arms::plain_arm))]
fn plain_arm(k: u16) -> ItemArm
    ensures { result ≡ plain_arm k }
{
    match k {
        DOC_COMMENT => ItemArm::Doc,
        _ if is_regular_trivia(k) => ItemArm::Trivia,
        AT => ItemArm::Procedure,
        _ => ItemArm::Bad,
    }
}

// The tests of parse_source_item; few are left once it is known whether the token is a word.
pub fn item_arm_here(parser: &Parser, p: usize) -> ItemArm
    ensures { result ≡ item_arm (drop p parser.now.kinds.now) }
{
    let k = parser.current(p);
    if k < MARK {
        return plain_arm(k);
    }
    if k == PUB {
        return declaration_arm(parser.declared(p));
    }
    word_arm(k)
}
