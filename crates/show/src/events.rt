// One line for each event.
use frames::output::write_tagged;
use grammar::event::{CLOSE, ERROR_TOKEN};
use lexer::syntax::{ERROR, SyntaxKind};
use std::io;
use std::io::Write;

// The kinds of nodes go from ERROR to LAST_NODE. A token of kind Error has an event of its own.
const LAST_NODE: u16 = SyntaxKind::TypeBody as u16;

// What an entry of the slice of events says: a node closes, a node of this kind opens, or a token of this kind stands there.
#[derive(Clone, Copy)]
enum Event {
    Close,
    Open(u16),
    Token(u16),
}

impl From<u16> for Event {
    fn from(entry: u16) -> Event {
        match entry {
            CLOSE => Event::Close,
            ERROR..=LAST_NODE => Event::Open(entry),
            ERROR_TOKEN => Event::Token(ERROR),
            _ => Event::Token(entry),
        }
    }
}

// `-`, `+ kind` or `= kind start end`. The tokens stand end to end; past the last of the ends is 0.
pub fn put_events(out: &mut impl Write, ends: &[u32], events: &[u16]) -> io::Result<()> {
    let mut ends = ends.iter();
    let mut start = 0;
    for &entry in events {
        match Event::from(entry) {
            Event::Close => out.write_all(b"-\n")?,
            Event::Open(kind) => write_tagged(out, b"+", &[kind])?,
            Event::Token(kind) => {
                let end = ends.next().copied().unwrap_or(0);
                write_tagged(out, b"=", &[kind.into(), start, end])?;
                start = end;
            }
        }
    }
    Ok(())
}
