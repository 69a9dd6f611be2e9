// Where lines end in a source: at CR LF, at a CR alone and at an LF alone. The line and the column of an offset.
#![tactic(auto)]

ghost use Rattle.lines.specs.MasmLines.{MasmLines};

mod spot;
mod walk;

use lexer::MAX_SOURCE;
pub use spot::Spot;
pub use walk::{MARKS, Position, SourceWalk};

// The unit's call: the line and the column of each offset, as far as the shortest slice goes; how many it wrote. Of a source that is too
// long none. C calls it in masm, since no crate can stand on a static library.
pub fn masm_lines(source: &[u8], offsets: &[u32], lines: &mut [u32], columns: &mut [u32]) -> u64
    ensures { MasmLines
        source.now offsets.now lines.old columns.old
        result lines.new columns.new }
{
    if MAX_SOURCE < source.len() {
        return 0;
    }
    let n = offsets.len().min(lines.len()).min(columns.len());
    let mut marks = [Spot::START; MARKS];
    let mut walk = SourceWalk::new(source, &mut marks);
    // By index: of what is written through a `zip` of two `iter_mut` a proof learns nothing.
    for i in 0..n {
        let Position { line, column } = walk.position(offsets[i] as usize);
        lines[i] = line as u32;
        columns[i] = column as u32;
    }
    n as u64
}
