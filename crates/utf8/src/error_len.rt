// How bytes break off where no character stands: cut off, or wrong.
ghost use Rattle.std.specs.Prelude.{◌≡◌};
ghost use Rattle.utf8.specs.ErrorLen.{start_length, error_len};

// The length of the longest proper start of a character that the bytes begin with, 0 where there is none: table 3-7 without the last bytes
// of its rows.
#[tactic(auto, using(crate::proofs::StartLength::starts), unfolding(crate::specs::Table::table_3_7))]
fn start_length(bytes: &[u8]) -> usize
    ensures { result ≡ start_length bytes.now }
{
    match bytes {
        [0xF0, 0x90..=0xBF, 0x80..=0xBF, ..]
        | [0xF1..=0xF3, 0x80..=0xBF, 0x80..=0xBF, ..]
        | [0xF4, 0x80..=0x8F, 0x80..=0xBF, ..] => 3,
        [0xE0, 0xA0..=0xBF, ..]
        | [0xE1..=0xEC, 0x80..=0xBF, ..]
        | [0xED, 0x80..=0x9F, ..]
        | [0xEE..=0xEF, 0x80..=0xBF, ..]
        | [0xF0, 0x90..=0xBF, ..]
        | [0xF1..=0xF3, 0x80..=0xBF, ..]
        | [0xF4, 0x80..=0x8F, ..] => 2,
        [0xC2..=0xF4, ..] => 1,
        _ => 0,
    }
}

// 0 where the bytes to their end are such a start, which more bytes could complete; else how many bytes are wrong together. Rust's
// `error_len`.
pub fn error_len(bytes: &[u8]) -> usize
    ensures { result ≡ error_len bytes.now }
{
    let n = start_length(bytes);
    if n == bytes.len() { 0 } else { n.max(1) }
}
