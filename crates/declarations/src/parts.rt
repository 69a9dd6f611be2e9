// What several items share.
ghost use Rattle.grammar.specs.Words.{key, word_number};
ghost use Rattle.parser.specs.Rep.{entry, exit, Ran};
ghost use Rattle.declarations.specs.Parts.{name_behind, keyword_and_name, optional_parens, value_line};

use forms::line::{parse_expr_until_line_end, parse_line_tail};
use forms::path::parse_balanced_group;
use grammar::message::Message;
use grammar::words::Word;
use lexer::syntax::SyntaxKind;
use parser::cursor::Cursor;
use parser::state::Parser;

// A name, behind trivia.
pub fn name_behind(parser: &mut Parser, c0: Cursor, name: Message) -> Cursor
    ensures { Ran (name_behind name) (entry parser c0) (exit parser result) }
{
    let a = parser.bump_regular_trivia(c0);
    parser.expect_name(a, name)
}

// A keyword that must be there, and a name behind it.
pub fn keyword_and_name(
    parser: &mut Parser,
    c0: Cursor,
    keyword: Word,
    m: Message,
    name: Message,
) -> Cursor
    ensures { Ran (keyword_and_name (key (word_number keyword)) m name) (entry parser c0) (exit parser result) }
{
    let a = parser.expect_keyword(c0, keyword, m);
    name_behind(parser, a.c, name)
}

// keyword_and_name at any token, by its number. The one above does not call it: expect_keyword asks less, 3 percent of a file of constants.
pub fn symbol_and_name(parser: &mut Parser, c0: Cursor, k: u16, m: Message, name: Message) -> Cursor
    ensures { Ran (keyword_and_name k m name) (entry parser c0) (exit parser result) }
{
    let a = parser.expect_symbol(c0, k, m);
    name_behind(parser, a.c, name)
}

// A group in parentheses, where one starts here.
pub fn optional_parens(parser: &mut Parser, c0: Cursor, missing: Message) -> Cursor
    ensures { Ran (optional_parens missing) (entry parser c0) (exit parser result) }
{
    if parser.at_kind(c0.pos, SyntaxKind::LParen) {
        return parse_balanced_group(parser, c0, SyntaxKind::LParen, SyntaxKind::RParen, missing);
    }
    c0
}

// `=`, an expression and the rest of the line.
pub fn value_line(parser: &mut Parser, c0: Cursor, missing: Message) -> Cursor
    ensures { Ran (value_line missing) (entry parser c0) (exit parser result) }
{
    let a = parser.expect_kind(c0, SyntaxKind::Equal, missing);
    let b = parse_expr_until_line_end(parser, a.c);
    parse_line_tail(parser, b)
}
