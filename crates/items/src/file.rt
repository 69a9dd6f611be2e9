// The whole file.
ghost use Rattle.std.specs.Prelude.{◌≤◌, length};
ghost use Rattle.lexer.specs.Tokens.{MAX_SOURCE};
ghost use Rattle.grammar.specs.Item.{items_in};
ghost use Rattle.parser.specs.Rep.{entry, exit, Ran};
ghost use Rattle.items.specs.Entry.{start, parser_slices, Parse};

use crate::item::parse_source_item;
use grammar::limit::NestingLimit;
use lexer::syntax::SyntaxKind;
use parser::cursor::Cursor;
use parser::state::Parser;

// parse's loop; trivia behind an item is taken at once.
fn source_items(parser: &mut Parser, c0: Cursor, limit: NestingLimit) -> Cursor
    ensures { Ran (items_in limit.forms) (entry parser c0) (exit parser result) }
{
    let mut c = c0;
    while !parser.eof(c.pos) {
        let d = parse_source_item(parser, c, limit);
        c = parser.bump_regular_trivia(d);
    }
    c
}

// The whole file, in its root node.
pub fn parse(
    limit: NestingLimit,
    kinds: &[u16],
    events: &mut [u16],
    messages: &mut [u16],
    starts: &mut [u32],
) -> Cursor
    requires { length kinds.now ≤ MAX_SOURCE }
    ensures { Parse limit.forms kinds.now
        (parser_slices events.old messages.old starts.old start)
        (parser_slices events.new messages.new starts.new result) }
{
    let mut parser = Parser {
        kinds,
        events,
        messages,
        starts,
    };
    let a = parser.start_node(Cursor::default(), SyntaxKind::SourceFile);
    let b = source_items(&mut parser, a, limit);
    parser.finish_node(b)
}
