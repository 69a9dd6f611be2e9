// lex_quoted: a loop that yields its ending by break, with the cursor and the flags carried along.
ghost use Rattle.std.specs.Prelude.{◌≡◌, ◌≤◌, true, false};
ghost use Rattle.lexer.specs.Lexer.{quoted};
ghost use Rattle.lexer.specs.Code.{kept, quote_rest, Lexed, Quote};

use crate::chars::{is_graphic, is_graphic_inside, is_line_end, is_line_inside};
use crate::state::Lexer;
use crate::syntax::SyntaxKind;

#[derive(Clone, Copy)]
pub enum Ending {
    Closed { identifier_like: bool },
    Line,
    File,
}

// Whether a quote that was identifier-like stays so with this byte.
fn keeps(identifier_like: bool, b: u8) -> bool
    ensures { result ≡ kept identifier_like b }
{
    identifier_like && (is_graphic(b) && b != b'\\')
}

impl Lexer<'_> {
    // To the next byte that needs a look: a quote, a line end or a backslash, or a byte that ends being identifier-like; behind a
    // backslash, any.
    fn ahead(&mut self, taken: bool, identifier_like: bool)
        ensures source_is { self.new.source.now ≡ self.old.source.now }
        ensures not_back { self.old.offset ≤ self.new.offset }
        ensures rest_is { quote_rest self.old taken identifier_like ≡ quote_rest self.new taken identifier_like }
    {
        if taken {
            return;
        }
        if identifier_like {
            self.advance_while(is_graphic_inside);
        } else {
            self.advance_while(is_line_inside);
        }
    }

    // How a quote ends whose body starts at the offset.
    fn quote(&mut self) -> Ending
        ensures { Quote self.old result self.new }
    {
        let mut taken = false;
        let mut identifier_like = true;
        loop {
            self.ahead(taken, identifier_like);
            if self.source.len() <= self.offset {
                break Ending::File;
            }
            let b = self.source[self.offset];
            if taken {
                taken = false;
                self.offset += 1;
                continue;
            }
            if is_line_end(b) {
                break Ending::Line;
            }
            if b == b'"' {
                self.offset += 1;
                break Ending::Closed { identifier_like };
            }
            taken = b == b'\\';
            identifier_like = keeps(identifier_like, b);
            self.offset += 1;
        }
    }

    pub(crate) fn lex_quoted(&mut self) -> SyntaxKind
        ensures { Lexed (quoted false true) self.old result self.new }
    {
        match self.quote() {
            Ending::Closed {
                identifier_like: true,
            } => SyntaxKind::QuotedIdent,
            Ending::Closed {
                identifier_like: false,
            } => SyntaxKind::QuotedString,
            Ending::Line | Ending::File => SyntaxKind::Error,
        }
    }
}
