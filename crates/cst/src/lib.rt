// The reading of a source into lent slices: UTF-8, lexer, words, grammar, places.
#![tactic(auto)]

ghost use Rattle.std.specs.Prelude.{◌≡◌, ◌≤◌, length, Ok, IfOk, IfErr};
ghost use Rattle.utf8.specs.Validate.{validate};
ghost use Rattle.lexer.specs.Tokens.{MAX_SOURCE};
ghost use Rattle.answer.specs.Answer.{entry_slices, exit_slices, outcome, with_tokens, from_row_3, from_row_1, parse_text};
ghost use Rattle.answer.specs.Call.{MasmParseText};
ghost use Rattle.answer.specs.Lent.{lists, SameSlices};
ghost use Rattle.cst.specs.Reading.{Refuses};

use answer::{Answer, FourNumbers, Status};
use grammar::limit::NestingLimit;
use lexer::MAX_SOURCE;

mod rows;

pub use answer::Slices;

// A source that is not too long and is UTF-8.
#[derive(Clone, Copy)]
pub struct Text<'a> {
    pub bytes: &'a [u8],
    ghost within_limit: { length bytes.now ≤ MAX_SOURCE },
    ghost is_utf8: { validate bytes.now ≡ Ok tt },
}

// Any bytes: too many are refused first, and then those that are not UTF-8.
impl<'a> TryFrom<&'a [u8]> for Text<'a> {
    type Error = Answer;

    ghost try_from_gives = { λ source r. IfOk r (λ text. text.bytes.now ≡ source.now) × IfErr r (Refuses source.now) };

    #[inline(always)]
    fn try_from(source: &'a [u8]) -> Result<Text<'a>, Answer> {
        if MAX_SOURCE < source.len() {
            return Err(Answer::TooLong);
        }
        match utf8::validate(source) {
            Err(e) => Err(Answer::NotUtf8(e)),
            Ok(()) => Ok(Text { bytes: source }),
        }
    }
}

// A text's tokens with their marks, the rows from 3 on, and the marks taken off.
fn parse_utf8(limit: NestingLimit, text: Text, slices: &mut Slices) -> Answer
    ensures same_slices { SameSlices slices.old slices.new }
    ensures answer { outcome result (lists slices.new)
        ≡ from_row_3 limit.forms text.entry.bytes.now
        (with_tokens text.entry.bytes.now (lists slices.old)) }
{
    let read = marks::mark_source(text.bytes, slices.kinds, slices.ends);
    let n = slices.kinds.len().min(slices.ends.len()).min(read.count);
    let answer = rows::parse_from_row_3(limit, text, read, slices);
    marks::unmark(&mut slices.kinds[..n]);
    answer
}

// The rows from 1 on, of any bytes into any slices. This and `parse_text` are inlined, so that the slices stand in one frame.
#[inline(always)]
fn parse_from_row_1(limit: NestingLimit, source: &[u8], slices: &mut Slices) -> Answer
    ensures same_slices { SameSlices slices.old slices.new }
    ensures answer { outcome result (lists slices.new) ≡ from_row_1 limit.forms source.now (lists slices.old) }
{
    match Text::try_from(source) {
        Err(refusal) => refusal,
        Ok(text) => parse_utf8(limit, text, slices),
    }
}

// The whole reading, at any limit.
#[inline(always)]
pub fn parse_text(limit: u64, source: &[u8], slices: &mut Slices) -> Answer
    ensures same_slices { SameSlices slices.old slices.new }
    ensures answer { outcome result (lists slices.new) ≡ parse_text limit source.now (lists slices.old) }
{
    match NestingLimit::new(limit) {
        None => Answer::LimitOutOfRange,
        Some(limit) => parse_from_row_1(limit, source, slices),
    }
}

// The unit's call: the status, and the other three numbers in the first words of `counts`. The programs call it here, and C in masm, since
// no crate can stand on a static library.
pub fn masm_parse_text(
    limit: u64,
    source: &[u8],
    kinds: &mut [u16],
    ends: &mut [u32],
    events: &mut [u16],
    messages: &mut [u16],
    starts: &mut [u32],
    stops: &mut [u32],
    counts: &mut [u64],
) -> u64
    ensures { MasmParseText
        limit source.now (entry_slices kinds ends events messages starts stops) counts.old
        result (exit_slices kinds ends events messages starts stops) counts.new }
{
    if counts.len() < 3 {
        return Status::FewCounts.into();
    }
    let mut slices = Slices {
        kinds,
        ends,
        events,
        messages,
        starts,
        stops,
    };
    let answer = parse_text(limit, source, &mut slices);
    let n = FourNumbers::from(answer);
    counts[..3].copy_from_slice(&[n.first, n.second, n.third]);
    n.status
}
