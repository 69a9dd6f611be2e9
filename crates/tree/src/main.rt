// Reads up to 2,048 bytes of standard input, and prints their reading, or that they can't be read.
#![tactic(auto)]

ghost use Rattle.std.specs.Prelude.{◌≡◌, []};

use cst::Slices;
use frames::input::read_input;
use frames::output::Output;
use show::LONGEST;
use std::io;
use std::io::{Read, Write};

// One byte more is read, for which the text is that there are too many. It always answers `Ok`, as `Output` does, with nothing left in it.
fn put_input<P: Print>(
    out: &mut Output<'_, '_, P>,
    from: &mut impl Read,
    slices: &mut Slices<'_>,
) -> io::Result<()>
    ensures ok { result ≡ Ok tt }
    ensures written { out.new.pending ≡ [] }
{
    let mut source = [0u8; LONGEST + 1];
    match read_input(from, &mut source) {
        Ok(got) => show::put_tree(out, &source[..got], slices),
        Err(_) => out.write_all(b"unread\n")?,
    }
    out.flush()
}

fn main(rt: HostRuntime) {
    let mut slices = Slices {
        kinds: &mut [0u16; LONGEST],
        ends: &mut [0u32; LONGEST],
        events: &mut [0u16; 7 * LONGEST + 2],
        messages: &mut [0u16; LONGEST],
        starts: &mut [0u32; LONGEST],
        stops: &mut [0u32; LONGEST],
    };
    let mut buf = [0u8; 4096];
    let mut out = Output::new(&rt, &mut buf);
    let _ = put_input(&mut out, &mut rt.stdin(), &mut slices);
}
