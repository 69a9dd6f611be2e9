// Standard input as far as a buffer has room.
ghost use Rattle.std.specs.Prelude.{IfOk, IfErr};
ghost use Rattle.std.specs.Counts.{IsPrefixLen};

use std::io::Read;

// A read failed, behind the bytes that came before.
#[derive(Clone, Copy, Debug)]
pub struct Unread {
    pub got: usize,
}

// Reads until the buffer is full, the input ends or a read fails, and returns how many bytes came.
pub fn read_input(from: &mut impl Read, buf: &mut [u8]) -> Result<usize, Unread>
    ensures ok { IfOk result (λ got. IsPrefixLen got buf.new) }
    ensures err { IfErr result (λ e. IsPrefixLen e.got buf.new) }
{
    let mut got = 0;
    // A while: a read may give fewer bytes than there is room for.
    while got < buf.len() {
        match from.read(&mut buf[got..]) {
            Ok(0) => return Ok(got),
            Ok(n) => got += n,
            Err(_) => return Err(Unread { got }),
        }
    }
    Ok(got)
}
