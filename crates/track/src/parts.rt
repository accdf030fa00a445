// The parts of a turn that has more intervals than the tape has room for.
ghost use Rattle.std.specs.Prelude.{◌≡◌};
ghost use Rattle.track.specs.Parts.{part_count, part};

// How many intervals a part has at most.
pub const PART: usize = 1_024;

// Which intervals of the turn a part has: those from `from` on and before `end`. A `Range` is no `Copy`, and the laws of
// parts speak of this one.
#[derive(Clone, Copy)]
pub struct Part {
    pub from: usize,
    pub end: usize,
}

// How many parts so many intervals have.
pub fn part_count(intervals: usize) -> usize
    ensures { result ≡ part_count intervals }
{
    intervals.div_ceil(PART)
}

// Part i of so many intervals, from 0 on. Past the last part it is empty, at the end.
pub fn part_at(intervals: usize, i: usize) -> Part
    ensures { result ≡ part intervals i }
{
    let from = i.saturating_mul(PART).min(intervals);
    Part {
        from,
        end: from.saturating_add(PART).min(intervals),
    }
}
