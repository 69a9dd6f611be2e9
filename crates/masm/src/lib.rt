// The unit's calls for C, under names that the archive exports: each is the function of the same name and contract in the crate below. They
// stand here alone, since no crate can stand on a static library.
#![tactic(auto)]

ghost use Rattle.answer.specs.Answer.{entry_slices, exit_slices};
ghost use Rattle.answer.specs.Call.{MasmParseText};
ghost use Rattle.lines.specs.MasmLines.{MasmLines};

// The reading: the status, and the other three numbers in the first words of `counts`.
#[unsafe(no_mangle)]
pub extern "C" fn masm_parse_text(
    limit: u64,
    source: &[u8],
    kinds: &mut [u16],
    ends: &mut [u32],
    events: &mut [u16],
    messages: &mut [u16],
    starts: &mut [u32],
    stops: &mut [u32],
    counts: &mut [u64],
) -> u64
    ensures { MasmParseText
        limit source.now (entry_slices kinds ends events messages starts stops) counts.old
        result (exit_slices kinds ends events messages starts stops) counts.new }
{
    cst::masm_parse_text(
        limit, source, kinds, ends, events, messages, starts, stops, counts,
    )
}

// The line and the column of each offset, and how many were written.
#[unsafe(no_mangle)]
pub extern "C" fn masm_lines(
    source: &[u8],
    offsets: &[u32],
    lines: &mut [u32],
    columns: &mut [u32],
) -> u64
    ensures { MasmLines
        source.now offsets.now lines.old columns.old
        result lines.new columns.new }
{
    lines::masm_lines(source, offsets, lines, columns)
}
