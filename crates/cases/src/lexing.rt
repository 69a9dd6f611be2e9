// The lexer alone on one source: its slices filled, the call, and what is left in the slices.
use crate::filling;
use answer::{Answer, FourNumbers, Status};
use cst::{Slices, Text};
use frames::output::write_line;
use std::io;
use std::io::Write;

// The number of tokens, or why there are none.
fn tokenize(source: &[u8], slices: &mut Slices<'_>) -> Result<usize, Answer> {
    let text = Text::try_from(source)?;
    Ok(lexer::tokenize(text.bytes, slices.kinds, slices.ends))
}

// The three lines of an answer. The first has the status, and the number of tokens or the refusal's two numbers.
pub fn put_lexing(out: &mut impl Write, source: &[u8], slices: &mut Slices<'_>) -> io::Result<()> {
    slices.kinds.fill(filling::SHORT);
    slices.ends.fill(filling::LONG);
    match tokenize(source, slices) {
        Ok(count) => write_line(out, &[Status::Accepted.into(), count as u64, 0])?,
        Err(refusal) => {
            let row = FourNumbers::from(refusal);
            write_line(out, &[row.status, row.first, row.second])?;
        }
    }
    write_line(out, slices.kinds)?;
    write_line(out, slices.ends)
}
