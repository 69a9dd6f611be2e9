// Characters one by one, by the rows of table 3-7.
ghost use Rattle.std.specs.Prelude.{◌≡◌, ◌↔◌, IsTrue, ◌∷◌, ◌≤◌, ◌<◌, length, drop, SomeIff, IfOk, IfErr};
ghost use Rattle.utf8.specs.Table.{char_length};
ghost use Rattle.utf8.specs.ErrorLen.{error_len};
ghost use Rattle.utf8.specs.Passes.{Passes};

use crate::Utf8Error;
use crate::error_len::error_len;

// Whether a character of three bytes starts with `first`, `tail` behind it: table 3-7's rows of three.
#[tactic(auto, unfolding(crate::specs::Table::table_3_7, crate::specs::Table::length_in, crate::specs::Table::agree))]
fn is_three(first: u8, tail: &[u8]) -> bool
    ensures { IsTrue result ↔ (char_length (first ∷ tail.now) ≡ 3) }
{
    matches!(
        (first, tail),
        (0xE0, [0xA0..=0xBF, 0x80..=0xBF, ..])
            | (0xE1..=0xEC, [0x80..=0xBF, 0x80..=0xBF, ..])
            | (0xED, [0x80..=0x9F, 0x80..=0xBF, ..])
            | (0xEE..=0xEF, [0x80..=0xBF, 0x80..=0xBF, ..])
    )
}

// Whether one of four bytes does.
#[tactic(auto, unfolding(crate::specs::Table::table_3_7, crate::specs::Table::length_in, crate::specs::Table::agree))]
fn is_four(first: u8, tail: &[u8]) -> bool
    ensures { IsTrue result ↔ (char_length (first ∷ tail.now) ≡ 4) }
{
    matches!(
        (first, tail),
        (0xF0, [0x90..=0xBF, 0x80..=0xBF, 0x80..=0xBF, ..])
            | (0xF1..=0xF3, [0x80..=0xBF, 0x80..=0xBF, 0x80..=0xBF, ..])
            | (0xF4, [0x80..=0x8F, 0x80..=0xBF, 0x80..=0xBF, ..])
    )
}

// The length of the character that starts with `first`, `tail` behind it: table 3-7, its long rows apart.
// One match of all nine jumps by the first byte before it looks for ASCII: half as many instructions again on mixed text. With a test for
// ASCII before a match of the other eight they are still a tenth more.
#[tactic(auto, using(crate::proofs::ByRows::by_rows), unfolding(crate::specs::Table::table_3_7))]
fn char_length(first: u8, tail: &[u8]) -> Option<usize>
    ensures { SomeIff result (0 < char_length (first ∷ tail.now)) (char_length (first ∷ tail.now)) }
{
    match (first, tail) {
        (0x00..=0x7F, _) => Some(1),
        (0xC2..=0xDF, [0x80..=0xBF, ..]) => Some(2),
        (0xE0..=0xEF, _) if is_three(first, tail) => Some(3),
        (0xF0..=0xF4, _) if is_four(first, tail) => Some(4),
        _ => None,
    }
}

// Past the characters from `from` up to `to`, or an error where no character stands before `to`.
#[tactic(auto, using(crate::specs::TableLaws::char_within))]
pub fn walk(source: &[u8], from: usize, to: usize) -> Result<usize, Utf8Error>
    requires from_to { from ≤ to }
    requires within { to ≤ length source.now }
    ensures ok { IfOk result (λ at. (to ≤ at) × Passes source.now from at) }
    ensures err { IfErr result (λ e. (e.valid_up_to < to) × Passes source.now from e.valid_up_to
        × (char_length (drop e.valid_up_to source.now) ≡ 0) × (e.error_len ≡ error_len (drop e.valid_up_to source.now))) }
{
    let mut at = from;
    // A while: the step is the character's length.
    while at < to {
        let first = source[at];
        let Some(n) = char_length(first, &source[at + 1..]) else {
            return Err(Utf8Error {
                valid_up_to: at,
                error_len: error_len(&source[at..]),
            });
        };
        at += n;
    }
    Ok(at)
}
