// Calls of `masm_parse_text` that the program `cases` does not make: counts of two words, limits of more than 32 bits, and sources at the
// greatest length.
#![tactic(auto)]

use frames::output::{Output, write_line, write_number, write_numbers};
use lexer::MAX_SOURCE;
use std::io;
use std::io::Write;

// One call: its status and counts, then the slices of tokens and events, each a line.
fn put_call(out: &mut impl Write, limit: u64, source: &[u8], counts: &mut [u64]) -> io::Result<()> {
    let mut kinds = [7u16; 2];
    let mut ends = [7u32; 2];
    let mut events = [7u16; 4];
    let status = cst::masm_parse_text(
        limit,
        source,
        &mut kinds,
        &mut ends,
        &mut events,
        &mut [7u16; 1],
        &mut [7u32; 1],
        &mut [7u32; 1],
        counts,
    );
    write_number(out, status)?;
    write_numbers(out, counts)?;
    out.write_all(b"\n")?;
    write_line(out, &kinds)?;
    write_line(out, &ends)?;
    write_line(out, &events)
}

// The calls: counts of two words, and a limit that is not allowed, which comes before the length; the whole source, and all of it but its
// last byte. Two of the limits would be allowed if they were cut.
fn put_calls(out: &mut impl Write, source: &[u8]) -> io::Result<()> {
    put_call(out, 0, source, &mut [7u64; 2])?;
    for limit in [0, 257, 65_537, 4_294_967_301] {
        put_call(out, limit, source, &mut [7u64; 3])?;
    }
    let mut counts = [7u64; 3];
    put_call(out, 1, source, &mut counts)?;
    if let [shorter @ .., _] = source {
        put_call(out, 256, shorter, &mut counts)?;
    }
    out.flush()
}

fn main(rt: HostRuntime) {
    let source = [32u8; MAX_SOURCE + 1];
    let mut buf = [0u8; 4096];
    let mut out = Output::new(&rt, &mut buf);
    let _ = put_calls(&mut out, &source);
}
