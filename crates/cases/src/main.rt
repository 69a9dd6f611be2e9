// Reads framed cases from standard input, and answers each: what the lexer, the whole reading or `masm_lines` leaves in its slices, or the
// text of `tree`.
#![tactic(auto)]

use cst::Slices;
use frames::output::Output;
use lexer::MAX_SOURCE;

mod filling;
mod frame;
mod lexing;
mod positions;
mod reading;

// The entries of the slices: of tokens and diagnostics, and of events.
const ENTRIES: usize = 262144;

const EVENTS: usize = 917506;

// The slices stand on the stack, all together in less than the 8 MiB that a process is given.
fn main(rt: HostRuntime) {
    let mut source = [0u8; MAX_SOURCE + 1];
    let mut slices = Slices {
        kinds: &mut [0u16; ENTRIES],
        ends: &mut [0u32; ENTRIES],
        events: &mut [0u16; EVENTS],
        messages: &mut [0u16; ENTRIES],
        starts: &mut [0u32; ENTRIES],
        stops: &mut [0u32; ENTRIES],
    };
    let mut buf = [0u8; 65536];
    let mut out = Output::new(&rt, &mut buf);
    let _ = frame::answer_frames(&mut out, &mut rt.stdin(), &mut source, &mut slices);
}
