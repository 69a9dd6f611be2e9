// The whole reading of one source: its slices filled, the call, and what is left in the slices.
use crate::filling;
use answer::FourNumbers;
use cst::Slices;
use frames::output::write_line;
use std::io;
use std::io::Write;

fn fill(slices: &mut Slices<'_>) {
    slices.kinds.fill(filling::SHORT);
    slices.ends.fill(filling::LONG);
    slices.events.fill(filling::SHORT);
    slices.messages.fill(filling::SHORT);
    slices.starts.fill(filling::LONG);
    slices.stops.fill(filling::LONG);
}

// The seven lines of an answer.
pub fn put_reading(
    out: &mut impl Write,
    limit: u64,
    source: &[u8],
    slices: &mut Slices<'_>,
) -> io::Result<()> {
    fill(slices);
    let FourNumbers {
        status,
        first,
        second,
        third,
    } = FourNumbers::from(cst::parse_text(limit, source, slices));
    write_line(out, &[status, first, second, third])?;
    write_line(out, slices.kinds)?;
    write_line(out, slices.ends)?;
    write_line(out, slices.events)?;
    write_line(out, slices.messages)?;
    write_line(out, slices.starts)?;
    write_line(out, slices.stops)
}
