// Entries that a call leaves alone keep their filling, in binary 1010...10.

pub const SHORT: u16 = 0xaaaa;

pub const LONG: u32 = 0xaaaa_aaaa;
