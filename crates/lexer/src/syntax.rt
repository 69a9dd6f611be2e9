// syntax.rs: the kinds, and their numbers as the slices hold them. Nodes are 1 to 26, tokens 27 to 59; a token may also be Error.
ghost use Rattle.std.specs.Prelude.{◌≡◌};
ghost use Rattle.lexer.specs.Syntax.{kind_number};

#[derive(Debug, Clone, Copy, PartialEq, Eq, PartialOrd, Ord, Hash)]
pub enum SyntaxKind {
    Tombstone,
    Error,
    SourceFile,
    Doc,
    Namespace,
    ExternPackage,
    Submodule,
    Import,
    ImportList,
    ImportSpecifier,
    Constant,
    TypeDecl,
    AdviceMap,
    BeginBlock,
    Procedure,
    Attribute,
    Visibility,
    Signature,
    Block,
    IfOp,
    WhileOp,
    DoWhileOp,
    RepeatOp,
    Instruction,
    Path,
    Expr,
    TypeBody,
    Whitespace,
    Newline,
    Comment,
    DocComment,
    Ident,
    SpecialIdent,
    Number,
    QuotedIdent,
    QuotedString,
    At,
    Bang,
    Colon,
    ColonColon,
    Comma,
    Dot,
    DotDot,
    DotDotDot,
    Equal,
    LAngle,
    LBrace,
    LBracket,
    LParen,
    Minus,
    Plus,
    RAngle,
    RArrow,
    RBrace,
    RBracket,
    RParen,
    Semicolon,
    Slash,
    SlashSlash,
    Star,
}

impl From<SyntaxKind> for u16 {
    ghost from_gives = { λ kind n. n ≡ kind_number kind };

    fn from(kind: SyntaxKind) -> u16 {
        kind as u16
    }
}

// The numbers that the grammar's code compares with those of the kinds' slice, which C lends.
pub const ERROR: u16 = SyntaxKind::Error as u16;

pub const WHITESPACE: u16 = SyntaxKind::Whitespace as u16;

pub const DOC_COMMENT: u16 = SyntaxKind::DocComment as u16;

pub const IDENT: u16 = SyntaxKind::Ident as u16;

pub const AT: u16 = SyntaxKind::At as u16;

pub const L_BRACE: u16 = SyntaxKind::LBrace as u16;

pub const L_BRACKET: u16 = SyntaxKind::LBracket as u16;

pub const L_PAREN: u16 = SyntaxKind::LParen as u16;

pub const R_BRACE: u16 = SyntaxKind::RBrace as u16;

pub const R_BRACKET: u16 = SyntaxKind::RBracket as u16;

pub const R_PAREN: u16 = SyntaxKind::RParen as u16;
