// From the marked tokens to events and diagnostics: document 01's table from row 3 on.
ghost use Rattle.std.specs.Prelude.{◌≡◌, ◌≤◌, length, take};
ghost use Rattle.lexer.specs.Lexer.{tokenize};
ghost use Rattle.lexer.specs.Tokens.{token_ends};
ghost use Rattle.grammar.specs.Source.{symbols};
ghost use Rattle.marks.specs.Marks.{first_refused};
ghost use Rattle.answer.specs.Answer.{outcome, from_row_3, from_row_5};
ghost use Rattle.answer.specs.Lent.{lists, exit_lists, SameSlices};
ghost use Rattle.cst.specs.Reading.{MarkedTokens};

use crate::{Slices, Text};
use answer::Answer;
use grammar::limit::NestingLimit;
use marks::Read;

// The t tokens are read, the three diagnostic slices as far as the shortest goes; indices of tokens become places in bytes.
fn parse_from_row_5(limit: NestingLimit, text: Text, t: usize, slices: Slices) -> Answer
    requires { (t ≤ length slices.kinds.now) × (take t slices.kinds.now ≡ symbols text.bytes.now)
        × (t ≤ length slices.ends.now) × (take t slices.ends.now ≡ token_ends text.bytes.now) }
    ensures { outcome result (exit_lists slices.exit) ≡ from_row_5 limit.forms text.entry.bytes.now (lists slices.entry) }
{
    let Slices {
        kinds,
        ends,
        events,
        messages,
        starts,
        stops,
    } = slices;
    let room = messages.len().min(starts.len()).min(stops.len());
    let anchor = utf8::last_char(text.bytes);
    let end = items::file::parse(
        limit,
        &kinds[..t],
        events,
        &mut messages[..room],
        &mut starts[..room],
    );
    places::places(
        &ends[..t],
        anchor,
        end.diags,
        &mut starts[..room],
        &mut stops[..room],
    );
    if events.len() < end.events || room < end.diags {
        return Answer::OutputRoom {
            tokens: t,
            events: end.events,
            diagnostics: end.diags,
        };
    }
    Answer::Accepted {
        tokens: t,
        events: end.events,
        diagnostics: end.diags,
    }
}

// Rows 3 and 4: tokens that have no room, a refused word; else the rest of the reading.
pub fn parse_from_row_3(limit: NestingLimit, text: Text, read: Read, slices: &mut Slices) -> Answer
    requires { (read.refusal ≡ first_refused 0 (tokenize text.bytes.now))
        × (MarkedTokens text.bytes.now read.count slices.old.kinds.now slices.old.ends.now) }
    ensures same_slices { SameSlices slices.old slices.new }
    ensures answer { outcome result (lists slices.new) ≡ from_row_3 limit.forms text.entry.bytes.now (lists slices.old) }
{
    let t = read.count;
    if slices.kinds.len().min(slices.ends.len()) < t {
        return Answer::TokenRoom(t);
    }
    match read.refusal {
        Some(n) => Answer::Refused(n),
        None => {
            // By value: of a struct behind a `&mut` two parts of slices cannot be lent side by side.
            let lent = Slices {
                kinds: slices.kinds,
                ends: slices.ends,
                events: slices.events,
                messages: slices.messages,
                starts: slices.starts,
                stops: slices.stops,
            };
            parse_from_row_5(limit, text, t, lent)
        }
    }
}
