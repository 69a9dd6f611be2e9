// What stands before a block: a keyword, for some forms its suffixes, and the rest of the line.
ghost use Rattle.std.specs.Prelude.{◌≡◌, true, false, drop};
ghost use Rattle.lexer.specs.Syntax.{kind_number, DoWhileOp};
ghost use Rattle.grammar.specs.Words.{is, key, word_number, DO as do_word};
ghost use Rattle.grammar.specs.Look.{at, regular_trivia};
ghost use Rattle.parser.specs.Rep.{entry, exit};
ghost use Rattle.blocks.specs.Shapes.{header as header_of, keyword_line, FormHeader, KeywordLine};

use crate::suffix::parse_structured_header_suffixes;
use forms::line::parse_line_tail;
use grammar::message::Message;
use grammar::words::Word;
use lexer::syntax::SyntaxKind;
use parser::cursor::Cursor;
use parser::state::Parser;

// The node's opening event, its keyword, suffixes and the rest of the line: `if`, `while` and `repeat`.
// This and keyword_line are inlined: the arguments of their calls would stand in the frame of the cycle, and a level of it took 64
// bytes more without that.
#[inline(always)]
pub fn header(parser: &mut Parser, c0: Cursor, node: SyntaxKind, keyword: Word) -> Cursor
    requires { at (is (key (word_number keyword))) (drop c0.pos parser.old.kinds.now) ≡ true }
    ensures { FormHeader (kind_number node) (header_of (key (word_number keyword))) (entry parser c0) (exit parser result) }
{
    let a = parser.start_node(c0, node);
    let b = parser.expect_keyword(a, keyword, Message::Unreached);
    let s = parse_structured_header_suffixes(parser, b.c);
    parse_line_tail(parser, s)
}

// A keyword and the rest of the line: `do`, `else`, and the `while` behind the body of a `do`.
#[inline(always)]
pub fn keyword_line(parser: &mut Parser, c0: Cursor, keyword: Word) -> Cursor
    requires { at (is (key (word_number keyword))) (drop c0.pos parser.old.kinds.now) ≡ true }
    ensures { KeywordLine (key (word_number keyword)) (entry parser c0) (exit parser result) }
{
    let b = parser.expect_keyword(c0, keyword, Message::Unreached);
    parse_line_tail(parser, b.c)
}

// keyword_line at any token that is not trivia, by its number. keyword_line does not call it: that is inlined into the cycle, and the
// arguments of this call would stand in its frame.
pub fn symbol_line(parser: &mut Parser, c0: Cursor, k: u16) -> Cursor
    requires here { at (is k) (drop c0.pos parser.old.kinds.now) ≡ true }
    requires no_trivia { regular_trivia k ≡ false }
    ensures { KeywordLine k (entry parser c0) (exit parser result) }
{
    let b = parser.expect_symbol(c0, k, Message::Unreached);
    parse_line_tail(parser, b.c)
}

// The opening event of a `do` form, and its first line.
pub fn do_header(parser: &mut Parser, c0: Cursor) -> Cursor
    requires { at (is do_word) (drop c0.pos parser.old.kinds.now) ≡ true }
    ensures { FormHeader DoWhileOp (keyword_line do_word) (entry parser c0) (exit parser result) }
{
    let a = parser.start_node(c0, SyntaxKind::DoWhileOp);
    keyword_line(parser, a, Word::Do)
}
