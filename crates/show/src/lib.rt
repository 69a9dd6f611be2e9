// The text of program `tree`, as document 01 has it.
#![tactic(auto)]

use answer::{Answer, FourNumbers};
use cst::Slices;
use frames::output::{Output, write_tagged};
use grammar::limit::MAX_CONTROL_FLOW_NESTING;
use std::io;
use std::io::Write;

mod diagnostics;
mod events;
mod message;

// The most bytes that are read.
pub const LONGEST: usize = 2048;

// `ok` T E D, or `no` and the four numbers.
fn put_row(out: &mut impl Write, answer: Answer) -> io::Result<()> {
    let FourNumbers {
        status,
        first,
        second,
        third,
    } = FourNumbers::from(answer);
    match answer {
        Answer::Accepted { .. } => write_tagged(out, b"ok", &[first, second, third]),
        _ => write_tagged(out, b"no", &[status, first, second, third]),
    }
}

// The first `e` events and `d` diagnostics, as far as the slices go.
fn put_lists(
    out: &mut impl Write,
    limit: u64,
    source: &[u8],
    slices: &Slices<'_>,
    e: usize,
    d: usize,
) -> io::Result<()> {
    let e = e.min(slices.events.len());
    let d = d.min(slices.messages.len());
    events::put_events(out, slices.ends, &slices.events[..e])?;
    diagnostics::put_diagnostics(
        out,
        limit,
        source,
        &slices.messages[..d],
        slices.starts,
        slices.stops,
    )
}

// What `tree` prints for a source at a limit, the slices being its room, to any writer.
pub fn write_tree(
    out: &mut impl Write,
    limit: u64,
    source: &[u8],
    slices: &mut Slices<'_>,
) -> io::Result<()> {
    if LONGEST < source.len() {
        return out.write_all(b"long\n");
    }
    let answer = cst::parse_text(limit, source, slices);
    put_row(out, answer)?;
    match answer {
        Answer::OutputRoom {
            events,
            diagnostics,
            ..
        }
        | Answer::Accepted {
            events,
            diagnostics,
            ..
        } => put_lists(out, limit, source, slices, events, diagnostics),
        _ => Ok(()),
    }
}

// The same to standard output, at the unit's limit. `Output` never fails, so there is no result to look at, and the caller needs no case
// of an error.
pub fn put_tree<P: Print>(out: &mut Output<'_, '_, P>, source: &[u8], slices: &mut Slices<'_>) {
    let _ = write_tree(out, MAX_CONTROL_FLOW_NESTING.into(), source, slices);
}
