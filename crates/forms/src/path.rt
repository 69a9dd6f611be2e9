// Paths, and groups between delimiters.
ghost use Rattle.std.specs.Prelude.{◌≡◌, ◌<◌, ◌^◌};
ghost use Rattle.lexer.specs.Syntax.{kind_number};
ghost use Rattle.grammar.specs.Run.{loop};
ghost use Rattle.grammar.specs.Path.{path_segment, path_round, parse_path_with_message, parse_balanced_group};
ghost use Rattle.parser.specs.Rep.{entry, exit, Ran, RanTo};
ghost use Rattle.forms.specs.Path.{path_names, group_step, group_rest};

use grammar::message::{Message, PlainMessage};
use lexer::syntax::SyntaxKind;
use parser::cursor::{Cursor, Flow};
use parser::kinds::is_name_like;
use parser::state::Parser;

// A further segment of a path, at its `::`.
fn path_segment(parser: &mut Parser, c0: Cursor) -> Flow
    ensures { RanTo path_segment (entry parser c0) (exit parser result.c) result.ok }
{
    let a = parser.bump_non_comment_trivia(c0);
    let b = parser.bump(a);
    let d = parser.bump_non_comment_trivia(b);
    if is_name_like(parser.current(d.pos)) {
        return Flow {
            c: parser.bump(d),
            ok: true,
        };
    }
    Flow {
        c: parser.error_here(d, Message::Plain(PlainMessage::ExpectedPathSegment)),
        ok: false,
    }
}

// Whether there is a further segment, and it has a name.
fn path_round(parser: &mut Parser, c0: Cursor) -> Flow
    ensures { RanTo path_round (entry parser c0) (exit parser result.c) result.ok }
{
    let next = parser.peek_after_non_comment_trivia(c0.pos);
    if parser.at_kind(next, SyntaxKind::ColonColon) {
        return path_segment(parser, c0);
    }
    Flow { c: c0, ok: false }
}

#[tactic(auto, using(parser::proofs::Rounds::truly_path_round))]
fn path_segments(parser: &mut Parser, c0: Cursor) -> Cursor
    ensures { Ran (loop path_round) (entry parser c0) (exit parser result) }
{
    parser.repeat(c0, path_round)
}

// The first name and the further segments, or a diagnostic.
fn path_names(parser: &mut Parser, c0: Cursor, m: Message) -> Cursor
    ensures { Ran (path_names m) (entry parser c0) (exit parser result) }
{
    if is_name_like(parser.current(c0.pos)) {
        let d = parser.bump(c0);
        return path_segments(parser, d);
    }
    parser.error_here(c0, m)
}

pub fn parse_path_with_message(parser: &mut Parser, c0: Cursor, m: Message) -> Cursor
    ensures { Ran (parse_path_with_message m) (entry parser c0) (exit parser result) }
{
    let a = parser.start_node(c0, SyntaxKind::Path);
    let b = parser.bump_at(a, SyntaxKind::ColonColon);
    let d = parser.bump_non_comment_trivia(b);
    let e = path_names(parser, d, m);
    parser.finish_node(e)
}

// How many delimiters of this kind are open behind the token k. The opener and the closer go one by one, as the Rust's parameters do.
#[tactic(auto, unfolding(crate::specs::Path::group_step))]
fn group_depth(opener: u16, closer: u16, depth: usize, k: u16) -> usize
    requires open { 0 < depth }
    requires short { depth < 2 ^ 63 }
    ensures { result ≡ group_step opener closer depth k }
{
    if opener == k {
        return depth + 1;
    }
    if closer == k {
        return depth - 1;
    }
    depth
}

// The group behind its first opener.
fn group_rest(parser: &mut Parser, c0: Cursor, opener: u16, closer: u16, missing: Message) -> Cursor
    ensures { Ran (group_rest opener closer missing) (entry parser c0) (exit parser result) }
{
    let mut c = c0;
    let mut depth: usize = 1;
    while 0 != depth && !parser.eof(c.pos) {
        depth = group_depth(opener, closer, depth, parser.current(c.pos));
        c = parser.bump(c);
    }
    if 0 == depth {
        return c;
    }
    parser.error_here(c, missing)
}

// parse_balanced_group, of any two tokens by their numbers.
#[inline(always)]
pub fn parse_group_between(
    parser: &mut Parser,
    c0: Cursor,
    opener: u16,
    closer: u16,
    missing: Message,
) -> Cursor
    ensures { Ran (parse_balanced_group opener closer missing) (entry parser c0) (exit parser result) }
{
    let a = parser.bump_regular_trivia(c0);
    let b = parser.expect_symbol(a, opener, missing);
    if !b.ok {
        return b.c;
    }
    group_rest(parser, b.c, opener, closer, missing)
}

pub fn parse_balanced_group(
    parser: &mut Parser,
    c0: Cursor,
    opener: SyntaxKind,
    closer: SyntaxKind,
    missing: Message,
) -> Cursor
    ensures { Ran (parse_balanced_group (kind_number opener) (kind_number closer) missing) (entry parser c0) (exit parser result) }
{
    parse_group_between(parser, c0, u16::from(opener), u16::from(closer), missing)
}
