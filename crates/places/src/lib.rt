// Diagnostics are written with the index of a token; here each index becomes the token's start and end in bytes.
#![tactic(auto)]

ghost use Rattle.std.specs.Prelude.{◌≡◌, ◌<◌, ◌^◌, length};
ghost use Rattle.places.specs.Places.{start_of, stop_of, Places};

// A token starts where the one before ended, the first at 0; behind the last stands the anchor.
fn start_of(ends: &[u32], anchor: u32, i: usize) -> u32
    ensures { result ≡ start_of ends.now anchor i }
{
    if ends.len() <= i {
        return anchor;
    }
    ends[..i].last().copied().unwrap_or(0)
}

fn stop_of(ends: &[u32], anchor: u32, i: usize) -> u32
    ensures { result ≡ stop_of ends.now anchor i }
{
    ends.get(i).copied().unwrap_or(anchor)
}

// The first `count` entries, as far as the slices go. Starts and stops are parallel slices, as the call from C has them.
pub fn places(ends: &[u32], anchor: usize, count: usize, starts: &mut [u32], stops: &mut [u32])
    requires anchor { anchor < 2 ^ 32 }
    requires same_length { length starts.old ≡ length stops.old }
    ensures { Places
        ends.now anchor count starts.old stops.old
        starts.new stops.new }
{
    let anchor = anchor as u32;
    let n = count.min(starts.len());
    // By index: of what is written through a `zip` of two `iter_mut` a proof learns nothing.
    for i in 0..n {
        let token = starts[i] as usize;
        starts[i] = start_of(ends, anchor, token);
        stops[i] = stop_of(ends, anchor, token);
    }
}
