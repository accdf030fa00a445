// Whether there is a result, and what the counts look like where there is none.
use crate::fit::Steps;
use crate::flux::Turns;
use crate::spread::Spread;
use crate::{fit, spread};
use tape::Refusal;

// Why there is no result: the first of these that holds, with what it rests on, a refusal, how many intervals, or which
// turn, counted from 1.
#[derive(Clone, Copy)]
pub enum Unfit {
    Refused(Refusal),
    HighDensity(usize),
    Unknown(usize),
    Gcr(usize),
    Fm(usize),
    Off(usize),
    TurnOff(usize),
    Unsettled,
}

// How many cells an interval has at most.
pub const CELLS: usize = 8;

// How many intervals have 1 to 8 cells.
pub type ByCells = [usize; CELLS];

// At what was reached: how long a cell is read, how many intervals have 1 to 8 cells, how many are off, how well it fits,
// and the verdict.
#[derive(Clone, Copy)]
pub struct Judged {
    pub verdict: Result<(), Unfit>,
    pub seen: f64,
    pub by_cells: ByCells,
    pub off: usize,
    pub spread: Spread,
}

// MFM has intervals of 2, 3 and 4 cells. What more than 1 in 64 intervals have is common.
const COMMON: usize = 64;

// The gaps and marks of any track of MFM have intervals of 3 cells, and FM has none. Fewer than 1 in 512 are taken for
// none, once there are so many intervals that MFM would have more.
const RARE: usize = 512;

const ENOUGH: usize = 4_096;

pub(crate) fn judge(steps: &Steps, turns: Turns) -> Judged {
    let drive = steps.last.drive;
    let seen = drive.seen();
    let by_cells = count_by_cells(turns.ticks, seen);
    Judged {
        verdict: decide(steps, by_cells, turns, seen),
        seen,
        by_cells,
        off: track::count_off(turns.ticks, seen),
        spread: spread::spread_at(drive, turns),
    }
}

fn count_by_cells(ticks: &[u32], seen: f64) -> ByCells {
    let mut counts = [0; CELLS];
    for (i, count) in counts.iter_mut().enumerate() {
        *count = track::count_cells(ticks, seen, i + 1);
    }
    counts
}

// The number of the first turn of which too many intervals are off.
fn first_turn_off(turns: Turns, seen: f64) -> Option<usize> {
    for (i, _) in turns.times.iter().enumerate() {
        if fit::are_too_many_off(turns.ticks_of(i), seen) {
            return Some(i + 1);
        }
    }
    None
}

fn decide(steps: &Steps, by_cells: ByCells, turns: Turns, seen: f64) -> Result<(), Unfit> {
    let intervals = turns.ticks.len();
    if let Err(refusal) = steps.last.next {
        return Err(Unfit::Refused(refusal));
    }
    if by_cells[0] > intervals / COMMON {
        return Err(one_cell(by_cells, intervals));
    }
    if longer_than(by_cells, 4) > intervals / COMMON {
        return Err(Unfit::Gcr(longer_than(by_cells, 4)));
    }
    if is_fm(by_cells, intervals) {
        return Err(Unfit::Fm(by_cells[2]));
    }
    if fit::are_too_many_off(turns.ticks, seen) {
        return Err(Unfit::Off(track::count_off(turns.ticks, seen)));
    }
    if let Some(turn) = first_turn_off(turns, seen) {
        return Err(Unfit::TurnOff(turn));
    }
    if steps.last.is_settled() {
        Ok(())
    } else {
        Err(Unfit::Unsettled)
    }
}

// A high density disk has cells of half the length: intervals of 1, 1 and a half and 2.
fn one_cell(by_cells: ByCells, intervals: usize) -> Unfit {
    if longer_than(by_cells, 2) > intervals / COMMON {
        Unfit::Unknown(by_cells[0])
    } else {
        Unfit::HighDensity(by_cells[0])
    }
}

fn is_fm(by_cells: ByCells, intervals: usize) -> bool {
    intervals >= ENOUGH && by_cells[2] <= (intervals - 1) / RARE
}

// The counts together are no more than all intervals.
fn longer_than(by_cells: ByCells, cells: usize) -> usize {
    by_cells
        .iter()
        .skip(cells)
        .fold(0usize, |sum, count| sum.saturating_add(*count))
}

impl Judged {
    pub(crate) fn is_fitted(self) -> bool {
        self.verdict.is_ok()
    }
}
