// A place in a source, and on to a later one.
ghost use Rattle.std.specs.Prelude.{◌≡◌, ◌+◌, ◌≤◌, ◌<◌, length};
ghost use Rattle.lines.specs.Ends.{completed};
ghost use Rattle.lines.specs.Places.{Stands};

// A place, how many line ends are completed by it, and where its line starts.
#[derive(Clone, Copy)]
pub struct Spot {
    pub at: usize,
    pub ends: usize,
    pub line_start: usize,
}

// Whether a line end is completed behind the byte at `n`.
fn completes(source: &[u8], n: usize) -> bool
    requires { n < length source.now }
    ensures { result ≡ completed source.now (n + 1) }
{
    match source[n] {
        b'\n' => true,
        b'\r' => n + 1 == source.len() || source[n + 1] != b'\n',
        _ => false,
    }
}

impl Spot {
    pub const START: Spot = Spot {
        at: 0,
        ends: 0,
        line_start: 0,
    };

    // The spot of a place that does not lie before it.
    #[tactic(auto, using(crate::proofs::Spots::behind_end, crate::proofs::Spots::same_line))]
    pub fn run_to(self, source: &[u8], to: usize) -> Spot
        requires stands { Stands source.now self }
        requires ahead { self.at ≤ to }
        requires within { to ≤ length source.now }
        ensures stands { Stands source.now result }
        ensures there { result.at ≡ to }
    {
        let mut spot = self;
        for n in self.at..to {
            if completes(source, n) {
                spot.ends += 1;
                spot.line_start = n + 1;
            }
        }
        spot.at = to;
        spot
    }
}
