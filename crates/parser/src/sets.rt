// Sets of kinds, and of words by their numbers, as the bits of a number: one shift tells of a u16 of the kinds' slice, which C lends,
// whether it is in the set. What each constant means is proved where it is asked: here, or in the crate above that names it.
use grammar::words::Word;
use lexer::syntax::SyntaxKind;

macro_rules! kinds {
    ($($kind:ident),*) => { 0 $(| 1 << SyntaxKind::$kind as u64)* };
}

macro_rules! words {
    ($($word:ident),*) => { 0 $(| 1 << Word::$word as u64)* };
}

// What neither opens nor closes a group.
pub const PLAIN_PUNCTUATION: u64 = kinds!(
    Dot, Equal, Comma, DotDot, DotDotDot, Colon, ColonColon, RArrow, Plus, Minus, Star, Slash,
    SlashSlash
);

pub const OPERAND: u64 = PLAIN_PUNCTUATION | kinds!(LBracket, LParen, LBrace);

pub const PUNCTUATION: u64 = PLAIN_PUNCTUATION | kinds!(RBracket, RParen, RBrace);

pub const NAME: u64 = kinds!(Ident, SpecialIdent, QuotedIdent);

pub const LITERALS: u64 = kinds!(Number, QuotedString);

pub const LINE_END: u64 = kinds!(Newline, Comment, DocComment);

pub const EQUAL_OR_COLON: u64 = kinds!(Equal, Colon);

// The kinds that neither change the delimiter counts nor are trivia or Error. PLAIN_PUNCTUATION has those of them that continue an
// instruction wherever they stand.
pub const PLAIN: u64 = PLAIN_PUNCTUATION
    | NAME
    | LITERALS
    | kinds!(At, Bang, LAngle, RAngle, Semicolon);

// What an instruction may go on with behind one Whitespace: the punctuation that continues it, and Whitespace again.
pub const GOES_ON: u64 = PUNCTUATION | kinds!(Whitespace);

// The kinds and the words that start an item, and the words that do behind `pub`.
pub const STARTER_KINDS: u64 = kinds!(DocComment, At);

pub const STARTERS: u64 = DECLARED | words!(AdvMap, Begin, Namespace);

pub const DECLARED: u64 = TYPE_WORDS | words!(Const, Mod, Proc);

pub const TYPE_WORDS: u64 = words!(Type, Enum);

// The words of the control forms.
pub const CONTROL_FLOW: u64 = words!(If, Do, While, Repeat);

// All words but `package`
pub const RESERVED: u64 = STARTERS | CONTROL_FLOW | words!(Else, End, Pub);
