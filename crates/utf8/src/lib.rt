// UTF-8: whether bytes are well formed, and else where and how they break off.
#![tactic(auto)]

ghost use Rattle.std.specs.Prelude.{◌≡◌};
ghost use Rattle.utf8.specs.Width.{width};
ghost use Rattle.utf8.specs.Validate.{validate};

mod ascii;
mod character;
mod error_len;
mod last;

pub use last::last_char;

// What is not UTF-8: its longest well-formed start ends at `valid_up_to`. `error_len` is 0 where the bytes from there on are cut off in the
// middle of a character, and else how many of them are wrong together; Rust's has None in place of 0.
#[derive(Clone, Copy, PartialEq, Eq, Debug)]
pub struct Utf8Error {
    pub valid_up_to: usize,
    pub error_len: usize,
}

// A character's length in bytes, by its first byte.
#[tactic(auto, unfolding(crate::specs::Width::width))]
pub fn width(b: u8) -> usize
    ensures { result ≡ width b }
{
    match b {
        0x00..=0xBF => 1,
        0xC0..=0xDF => 2,
        0xE0..=0xEF => 3,
        0xF0..=0xFF => 4,
    }
}

// Blocks of ASCII are passed whole, then some characters one by one, so that mixed text is not tried as a block at each character.
// Not std's `str::from_utf8`, whose contract speaks of the library's characters and not of table 3-7. It takes a quarter more instructions
// where most characters are wide, and half as many where runs of ASCII are shorter than a block.
pub fn validate(source: &[u8]) -> Result<(), Utf8Error>
    ensures { result ≡ validate source.now }
{
    let mut at = 0;
    // A while: a step ends where its walk does.
    while at < source.len() {
        let from = ascii::ascii_end(source, at);
        let to = source.len().min(from + 32);
        at = character::walk(source, from, to)?;
    }
    Ok(())
}
