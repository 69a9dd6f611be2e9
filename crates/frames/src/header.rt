// The numbers at the head of a frame.
ghost use Rattle.std.specs.Prelude.{◌≡◌, ◌+◌, ◌≤◌, length, slice_range};
ghost use Rattle.std.specs.Int.{from_le_bytes, w32};

// The number of four bytes from `at` on, low byte first. They are named one by one, since `first_chunk` and `try_into` have a case of too
// few, which never comes here.
pub fn frame_number(head: &[u8], at: usize) -> usize
    requires { at + 4 ≤ length head.now }
    ensures { result ≡ from_le_bytes w32 (slice_range head.now at (at + 4)) }
{
    u32::from_le_bytes([head[at], head[at + 1], head[at + 2], head[at + 3]]) as usize
}
