// The class of a token's first byte, by a table.
ghost use Rattle.std.specs.Prelude.{◌≡◌, true};
ghost use Rattle.lexer.specs.Chars.{class as class_of, word};
ghost use Rattle.lexer.specs.Code.{class_number, is_alone};

use crate::class::Class::{
    Blank, Colon, Comment, Cr, Digit, Dot, Letter, Minus, Quote, Single, Slash, Special, Stray,
};
use crate::syntax::SyntaxKind;

// The arms of `next`. Single: the byte is a token of this kind by itself. Stray: it starts nothing.
#[derive(Debug, Clone, Copy, PartialEq, Eq)]
pub enum Class {
    Letter,
    Digit,
    Blank,
    Cr,
    Comment,
    Special,
    Quote,
    Colon,
    Dot,
    Minus,
    Slash,
    Single(SyntaxKind),
    Stray,
}

const NEWLINE: Class = Single(SyntaxKind::Newline);

const AT: Class = Single(SyntaxKind::At);

const BANG: Class = Single(SyntaxKind::Bang);

const COMMA: Class = Single(SyntaxKind::Comma);

const EQUAL: Class = Single(SyntaxKind::Equal);

const L_ANGLE: Class = Single(SyntaxKind::LAngle);

const L_BRACE: Class = Single(SyntaxKind::LBrace);

const L_BRACKET: Class = Single(SyntaxKind::LBracket);

const L_PAREN: Class = Single(SyntaxKind::LParen);

const PLUS: Class = Single(SyntaxKind::Plus);

const R_ANGLE: Class = Single(SyntaxKind::RAngle);

const R_BRACE: Class = Single(SyntaxKind::RBrace);

const R_BRACKET: Class = Single(SyntaxKind::RBracket);

const R_PAREN: Class = Single(SyntaxKind::RParen);

const SEMICOLON: Class = Single(SyntaxKind::Semicolon);

const STAR: Class = Single(SyntaxKind::Star);

static CLASS: [Class; 256] = [
    Stray, Stray, Stray, Stray, Stray, Stray, Stray, Stray, Stray, Blank, NEWLINE, Stray, Stray,
    Cr, Stray, Stray, Stray, Stray, Stray, Stray, Stray, Stray, Stray, Stray, Stray, Stray, Stray,
    Stray, Stray, Stray, Stray, Stray, Blank, BANG, Quote, Comment, Special, Stray, Stray, Stray,
    L_PAREN, R_PAREN, STAR, PLUS, COMMA, Minus, Dot, Slash, Digit, Digit, Digit, Digit, Digit,
    Digit, Digit, Digit, Digit, Digit, Colon, SEMICOLON, L_ANGLE, EQUAL, R_ANGLE, Stray, AT,
    Letter, Letter, Letter, Letter, Letter, Letter, Letter, Letter, Letter, Letter, Letter, Letter,
    Letter, Letter, Letter, Letter, Letter, Letter, Letter, Letter, Letter, Letter, Letter, Letter,
    Letter, Letter, L_BRACKET, Stray, R_BRACKET, Stray, Letter, Stray, Letter, Letter, Letter,
    Letter, Letter, Letter, Letter, Letter, Letter, Letter, Letter, Letter, Letter, Letter, Letter,
    Letter, Letter, Letter, Letter, Letter, Letter, Letter, Letter, Letter, Letter, Letter,
    L_BRACE, Stray, R_BRACE, Stray, Stray, Stray, Stray, Stray, Stray, Stray, Stray, Stray, Stray,
    Stray, Stray, Stray, Stray, Stray, Stray, Stray, Stray, Stray, Stray, Stray, Stray, Stray,
    Stray, Stray, Stray, Stray, Stray, Stray, Stray, Stray, Stray, Stray, Stray, Stray, Stray,
    Stray, Stray, Stray, Stray, Stray, Stray, Stray, Stray, Stray, Stray, Stray, Stray, Stray,
    Stray, Stray, Stray, Stray, Stray, Stray, Stray, Stray, Stray, Stray, Stray, Stray, Stray,
    Stray, Stray, Stray, Stray, Stray, Stray, Stray, Stray, Stray, Stray, Stray, Stray, Stray,
    Stray, Stray, Stray, Stray, Stray, Stray, Stray, Stray, Stray, Stray, Stray, Stray, Stray,
    Stray, Stray, Stray, Stray, Stray, Stray, Stray, Stray, Stray, Stray, Stray, Stray, Stray,
    Stray, Stray, Stray, Stray, Stray, Stray, Stray, Stray, Stray, Stray, Stray, Stray, Stray,
    Stray, Stray, Stray, Stray, Stray, Stray, Stray, Stray, Stray, Stray, Stray, Stray, Stray,
    Stray, Stray, Stray,
];

pub fn class_of(b: u8) -> Class
    ensures number { class_number result ≡ class_of b }
    ensures alone { is_alone result ≡ true }
{
    CLASS[b as usize]
}

// Whether a byte goes on with a word: is_ascii_alphanumeric or '_'.
pub fn is_word(b: u8) -> bool
    ensures { result ≡ word b }
{
    matches!(class_of(b), Letter | Digit)
}
