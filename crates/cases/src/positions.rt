// The lines and columns of offsets in one source: the offsets read, the slices filled, the call, and what is left in them.
use crate::filling;
use frames::output::write_line;
use std::io;
use std::io::{Read, Write};

// Four bytes each, low byte first, or `None` where the input ends.
fn read_offsets(from: &mut impl Read, offsets: &mut [u32]) -> Option<()> {
    for offset in offsets.iter_mut() {
        let mut bytes = [0u8; 4];
        from.read_exact(&mut bytes).ok()?;
        *offset = u32::from_le_bytes(bytes);
    }
    Some(())
}

// The three lines of an answer. The first has the number that the call returns.
fn put_call(
    out: &mut impl Write,
    source: &[u8],
    offsets: &[u32],
    lines: &mut [u32],
    columns: &mut [u32],
) -> io::Result<()> {
    lines.fill(filling::LONG);
    columns.fill(filling::LONG);
    let written = lines::masm_lines(source, offsets, lines, columns);
    write_line(out, &[written])?;
    write_line(out, lines)?;
    write_line(out, columns)
}

// Answers the offsets behind a source, or `None` where the input ends.
pub fn put_positions(
    out: &mut impl Write,
    from: &mut impl Read,
    source: &[u8],
    offsets: &mut [u32],
    lines: &mut [u32],
    columns: &mut [u32],
) -> Option<io::Result<()>> {
    read_offsets(from, offsets)?;
    Some(put_call(out, source, offsets, lines, columns))
}
