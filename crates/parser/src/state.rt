// The parser: what it reads and where it writes. Its cursor goes by value.
ghost use Rattle.std.specs.Prelude.{◌<◌, ◌^◌, length};

// The tokens' kinds with their marks, and the lent slices of events and diagnostics; a diagnostic's start is a token's index here.
// The bound is any slice's: a loop takes it from here.
#[derive(Drop)]
pub struct Parser<'a> {
    pub kinds: &'a [u16],
    pub events: &'a mut [u16],
    pub messages: &'a mut [u16],
    pub starts: &'a mut [u32],
    pub ghost short: { length kinds.now < 2 ^ 63 },
}
