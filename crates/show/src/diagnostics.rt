// One line for each diagnostic: `! line column start end text`.
use crate::message::put_message;
use frames::output::write_numbers;
use lines::{MARKS, Position, SourceWalk, Spot};
use std::io::Write;
use std::{io, iter};

fn put_diagnostic(
    out: &mut impl Write,
    limit: u64,
    source: &[u8],
    position: Position,
    message: u16,
    start: u32,
    end: u32,
) -> io::Result<()> {
    let Position { line, column } = position;
    out.write_all(b"!")?;
    write_numbers(out, &[line as u64, column as u64, start.into(), end.into()])?;
    out.write_all(b" ")?;
    // Where the bytes are not in the source, there is no text.
    if let Some(said) = source.get(start as usize..end as usize) {
        put_message(out, limit, message, said)?;
    }
    out.write_all(b"\n")
}

// Diagnostics stand in the order of their places, so the source is gone through once. Past the end of the slices of places is 0.
pub fn put_diagnostics(
    out: &mut impl Write,
    limit: u64,
    source: &[u8],
    messages: &[u16],
    starts: &[u32],
    stops: &[u32],
) -> io::Result<()> {
    let mut marks = [Spot::START; MARKS];
    let mut walk = SourceWalk::new(source, &mut marks);
    let starts = starts.iter().copied().chain(iter::repeat(0));
    let stops = stops.iter().copied().chain(iter::repeat(0));
    for ((&message, start), end) in messages.iter().zip(starts).zip(stops) {
        let position = walk.position(start as usize);
        put_diagnostic(out, limit, source, position, message, start, end)?;
    }
    Ok(())
}
