// The words, and how the grammar reads a token: by its kind, and for an Ident that is a word by MARK times the word's number more.
ghost use Rattle.std.specs.Prelude.{◌≡◌};
ghost use Rattle.grammar.specs.Words.{key, word_number};

use lexer::syntax::IDENT;

// Above every kind: a number in a mark is multiplied by it.
pub const MARK: u16 = 256;

// The sixteen words, in the order of their numbers; and the two that are refused before the grammar.
#[derive(Debug, Clone, Copy, PartialEq, Eq, PartialOrd, Ord, Hash)]
pub enum Word {
    AdvMap = 1,
    Begin,
    Const,
    Do,
    Else,
    End,
    Enum,
    If,
    Mod,
    Namespace,
    Package,
    Proc,
    Pub,
    Repeat,
    Type,
    While,
    Use,
    Extern,
}

// A word's mark on Ident.
macro_rules! symbol {
    ($word:expr) => { IDENT + MARK * $word as u16 };
}

impl Word {
    // An Ident that is this word, as the grammar reads it.
    pub fn symbol(self) -> u16
        ensures { result ≡ key (word_number self) }
    {
        symbol!(self)
    }
}

// The words that a token's number is compared with: constants, since the token is a u16 of the kinds' slice, which C lends.
pub const ADV_MAP: u16 = symbol!(Word::AdvMap);

pub const BEGIN: u16 = symbol!(Word::Begin);

pub const CONST: u16 = symbol!(Word::Const);

pub const DO: u16 = symbol!(Word::Do);

pub const ENUM: u16 = symbol!(Word::Enum);

pub const IF: u16 = symbol!(Word::If);

pub const MOD: u16 = symbol!(Word::Mod);

pub const NAMESPACE_WORD: u16 = symbol!(Word::Namespace);

pub const PROC: u16 = symbol!(Word::Proc);

pub const PUB: u16 = symbol!(Word::Pub);

pub const TYPE: u16 = symbol!(Word::Type);

pub const WHILE: u16 = symbol!(Word::While);
