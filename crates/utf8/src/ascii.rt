// Runs of ASCII, a block of 64 bytes at a time.
ghost use Rattle.std.specs.Prelude.{ℕ, ◌≤◌, ◌<◌, ◌↔◌, IsTrue, length, get_or};
ghost use Rattle.utf8.specs.Passes.{Passes};

// With no early end, so that the compiler makes wide comparisons of it.
// The library's `is_ascii` looks through a block with other bytes twice: an eighth more instructions on mixed text.
fn is_ascii(block: &[u8; 64]) -> bool
    ensures { IsTrue result ↔ ((k : ℕ) → k < 64 → get_or block.now k 0 < 0x80) }
{
    let mut ascii = true;
    for b in block {
        ascii &= *b < 0x80;
    }
    ascii
}

// Past the blocks of ASCII from `from` on.
pub fn ascii_end(source: &[u8], from: usize) -> usize
    requires { from ≤ length source.now }
    ensures { Passes source.now from result }
{
    let (blocks, _) = source[from..].as_chunks::<64>();
    for (i, block) in blocks.iter().enumerate() {
        if !is_ascii(block) {
            return from + 64 * i;
        }
    }
    from + 64 * blocks.len()
}
