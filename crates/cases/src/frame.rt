// The frames of the input: nine little-endian numbers (the part, the limit on nesting, bytes of the source, entries of the six slices),
// then the source, and for lines and columns the offsets.
use crate::{lexing, positions, reading};
use cst::Slices;
use frames::header::frame_number;
use std::io::{Read, Write};
use std::{array, io};

// What is printed of a source: the lexer's slices, the whole reading, the text of `tree`, or lines and columns.
#[derive(Clone, Copy)]
enum Part {
    Lexer,
    Reading,
    Tree,
    Lines,
}

// A number that names no part.
#[derive(Clone, Copy, Debug)]
struct UnknownPart(usize);

impl TryFrom<usize> for Part {
    type Error = UnknownPart;

    fn try_from(number: usize) -> Result<Part, UnknownPart> {
        match number {
            0 => Ok(Part::Lexer),
            1 => Ok(Part::Reading),
            2 => Ok(Part::Tree),
            3 => Ok(Part::Lines),
            _ => Err(UnknownPart(number)),
        }
    }
}

// The numbers of a frame.
#[derive(Clone, Copy)]
struct Header {
    part: Part,
    limit: u64,
    source: usize,
    kinds: usize,
    ends: usize,
    events: usize,
    messages: usize,
    starts: usize,
    stops: usize,
}

// The next header, or `None` where the input ends or there is no such part.
fn read_header(from: &mut impl Read) -> Option<Header> {
    let mut head = [0u8; 36];
    from.read_exact(&mut head).ok()?;
    let numbers: [usize; 9] = array::from_fn(|i| frame_number(&head, 4 * i));
    let [
        part,
        limit,
        source,
        kinds,
        ends,
        events,
        messages,
        starts,
        stops,
    ] = numbers;
    Some(Header {
        part: Part::try_from(part).ok()?,
        limit: limit as u64,
        source,
        kinds,
        ends,
        events,
        messages,
        starts,
        stops,
    })
}

// Answers a source, or `None` where the input ends. The limit is the reading's and the text's. Offsets stand where a reading has the ends
// of tokens, their lines where it has starts, their columns where stops.
fn put_part(
    out: &mut impl Write,
    from: &mut impl Read,
    part: Part,
    limit: u64,
    source: &[u8],
    slices: &mut Slices<'_>,
) -> Option<io::Result<()>> {
    match part {
        Part::Lexer => Some(lexing::put_lexing(out, source, slices)),
        Part::Reading => Some(reading::put_reading(out, limit, source, slices)),
        Part::Tree => Some(show::write_tree(out, limit, source, slices)),
        Part::Lines => {
            positions::put_positions(out, from, source, slices.ends, slices.starts, slices.stops)
        }
    }
}

// One frame, or `None` where the input ends, there is no such part, or a number is too large. It is answered here and not handed back with
// its slices: of a `read_frame` that returns parts of `slices` the check says 'the borrow checker does not cover this function yet'.
fn answer_frame(
    out: &mut impl Write,
    from: &mut impl Read,
    source: &mut [u8],
    slices: &mut Slices<'_>,
) -> Option<io::Result<()>> {
    let header = read_header(from)?;
    let source = source.get_mut(..header.source)?;
    let mut lent = Slices {
        kinds: slices.kinds.get_mut(..header.kinds)?,
        ends: slices.ends.get_mut(..header.ends)?,
        events: slices.events.get_mut(..header.events)?,
        messages: slices.messages.get_mut(..header.messages)?,
        starts: slices.starts.get_mut(..header.starts)?,
        stops: slices.stops.get_mut(..header.stops)?,
    };
    from.read_exact(source).ok()?;
    put_part(out, from, header.part, header.limit, source, &mut lent)
}

// All frames. The count makes the loop end, and no input has as many frames.
pub fn answer_frames(
    out: &mut impl Write,
    from: &mut impl Read,
    source: &mut [u8],
    slices: &mut Slices<'_>,
) -> io::Result<()> {
    for _ in 0..u64::MAX {
        match answer_frame(out, from, source, slices) {
            Some(written) => written?,
            None => break,
        }
    }
    out.flush()
}
