// A walk over a source, for the lines and columns of offsets in any order.
ghost use Rattle.std.specs.Prelude.{◌≡◌, ◌≤◌, ◌<◌, length};
ghost use Rattle.lines.specs.Places.{Stands, Marks, IsPosition};

use crate::spot::Spot;

// How many marks there are, and how far apart: over a source of the greatest length.
pub const MARKS: usize = 512;

const STRIDE: usize = 2048;

// A line and a column, each counted from 1.
#[derive(Clone, Copy)]
pub struct Position {
    pub line: usize,
    pub column: usize,
}

// A source, the spot that was looked for last, and spots on the way: mark `j` stands at `j` times STRIDE once that was passed, and at the
// start before; `last` is the last that was. So no offset costs a walk over what was passed before. The marks are lent: by value they would
// be copied.
#[derive(Drop)]
pub struct SourceWalk<'s> {
    pub source: &'s [u8],
    spot: Spot,
    marks: &'s mut [Spot; MARKS],
    last: usize,
    ghost last_in: { last < 512 },
    ghost stands: { Stands source.now spot },
    ghost marks_stand: { Marks source.now marks.now },
}

impl<'s> SourceWalk<'s> {
    #[tactic(auto, using(crate::proofs::Spots::start_stands, crate::proofs::Spots::start_marks))]
    pub fn new(source: &'s [u8], marks: &'s mut [Spot; MARKS]) -> SourceWalk<'s>
        ensures { result.source ≡ source.entry }
    {
        marks.fill(Spot::START);
        SourceWalk {
            source,
            spot: Spot::START,
            marks,
            last: 0,
        }
    }

    // Where the mark before a place is nearer than the spot, or the spot lies behind the place, the walk goes on from the mark.
    fn jump(&mut self, to: usize)
        ensures source { self.new.source ≡ self.old.source }
        ensures ahead { self.new.spot.at ≤ to }
    {
        let mark = self.marks[(to / STRIDE).min(self.last)];
        if to < self.spot.at || self.spot.at < mark.at {
            self.spot = mark;
        }
    }

    // On to each mark up to a place that does not lie behind. A function of its own, since most offsets pass none.
    #[inline(never)]
    fn pass_marks(&mut self, to: usize)
        requires ahead { self.old.spot.at ≤ to }
        requires within { to ≤ length self.old.source.now }
        ensures source { self.new.source ≡ self.old.source }
        ensures ahead { self.new.spot.at ≤ to }
    {
        for j in self.spot.at / STRIDE + 1..(to / STRIDE + 1).min(MARKS) {
            self.spot = self.spot.run_to(self.source, j * STRIDE);
            self.marks[j] = self.spot;
            self.last = self.last.max(j);
        }
    }

    // On to a place that does not lie behind, with the marks on the way.
    fn run_to(&mut self, to: usize)
        requires ahead { self.old.spot.at ≤ to }
        requires within { to ≤ length self.old.source.now }
        ensures source { self.new.source ≡ self.old.source }
        ensures there { self.new.spot.at ≡ to }
    {
        if self.spot.at / STRIDE < to / STRIDE {
            self.pass_marks(to);
        }
        self.spot = self.spot.run_to(self.source, to);
    }

    // The line and the column of an offset, or of the source's end where that comes first.
    #[tactic(auto, using(crate::proofs::Spots::few))]
    pub fn position(&mut self, offset: usize) -> Position
        ensures source { self.new.source ≡ self.old.source }
        ensures position { IsPosition self.old.source.now offset result }
    {
        let to = offset.min(self.source.len());
        self.jump(to);
        self.run_to(to);
        let Spot {
            ends,
            line_start,
            ..
        } = self.spot;
        Position {
            line: ends + 1,
            column: to - line_start + 1,
        }
    }
}
