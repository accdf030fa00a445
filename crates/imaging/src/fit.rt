// The fit: steps to the least misfit of all turns.
ghost use Rattle.std.specs.Prelude.{◌≡◌, ◌+◌, ◌<◌};
ghost use Rattle.arrayvec.specs.ArrayVec.{array_vec_len};

use crate::flux::Turns;
use crate::machine::Machine;
use crate::model::{Drive, record_model};
use crate::passes::Passes;
use crate::turn::{Turned, turn};
use arrayvec::ArrayVec;
use dual::Pass;
use tape::Refusal;
use track::TURN;

const MOST_STEPS: usize = 64;

// After so many steps a track of which too many intervals are off is given up: noise can creep on for hundreds.
const PATIENCE: usize = 12;

// Of a file or a turn, at most one interval in so many may be off.
const MOST_OFF: usize = 8;

// A move of either parameter that is less than this no longer shows in what is written.
const SETTLED: f64 = 1.0 / 268_435_456.0;

// A step: where it was taken, the misfit an interval there, the edges that its passes visited, what all passes up to it
// came to, and where it leads; or, behind what it came to before, its refusal.
#[derive(Clone, Copy)]
pub struct Step {
    pub drive: Drive,
    pub misfit: f64,
    pub edges: u64,
    pub passes: Passes,
    pub next: Result<Drive, Refusal>,
}

// What is told of a step: where it was taken, the misfit there, and the edges.
#[derive(Clone, Copy, Default)]
pub struct Taken {
    pub drive: Drive,
    pub misfit: f64,
    pub edges: u64,
}

// The steps that were taken, in order, and the last of them.
#[derive(Drop)]
pub struct Steps {
    pub taken: ArrayVec<Taken, MOST_STEPS>,
    pub last: Step,
}

// Where a step is taken, of how many intervals, and how much pulls there: turns whose index time does, and the cells of
// the intervals that do.
#[derive(Clone, Copy)]
pub struct Place {
    pub drive: Drive,
    pub intervals: f64,
    pub turns: f64,
    pub cells: f64,
}

// The adjoints of the two parameters.
#[derive(Clone, Copy)]
struct Slopes {
    by_speed: f64,
    by_cell: f64,
}

// All steps, from the speed of the median index time and nominal cells on.
pub(crate) fn fit(turns: Turns, slice: Option<usize>) -> Steps {
    let mut machine = Machine::new();
    let mut steps = Steps::none(turns.median, slice);
    while !steps.taken.is_full() {
        let before = steps.last;
        let Ok(drive) = before.next else {
            break;
        };
        if before.is_settled() || is_given_up(steps.taken.len(), before, turns) {
            break;
        }
        let step = take_step(&mut machine, drive, before.passes, turns);
        steps.push(step);
    }
    steps
}

fn is_given_up(taken: usize, last: Step, turns: Turns) -> bool {
    taken >= PATIENCE && are_too_many_off(turns.ticks, last.drive.seen())
}

pub(crate) fn are_too_many_off(ticks: &[u32], seen: f64) -> bool {
    track::count_off(ticks, seen) > ticks.len() / MOST_OFF
}

fn take_step(machine: &mut Machine, drive: Drive, passes: Passes, turns: Turns) -> Step {
    let place = Place::at(drive, turns);
    let mut turned = Turned::none(passes);
    let slopes = find_slopes(machine, &mut turned, drive, turns);
    Step {
        drive,
        misfit: turned.misfit / place.intervals,
        edges: turned.edges,
        passes: turned.passes,
        next: slopes.map(|slopes| place.bottom(slopes)),
    }
}

// The calls of document 01's demand 3, in its order: start, the model, mark, clear; for each part of each turn its
// misfit, the pass to the mark, the rewind; at last the pass from the mark to the start.
// So the two adjoints that are read are those of one long tape of all turns
// (crates/revolutions/specs/Revolutions.antt).
fn find_slopes(
    machine: &mut Machine,
    turned: &mut Turned,
    drive: Drive,
    turns: Turns,
) -> Result<Slopes, Refusal> {
    machine.start_recording()?;
    let model = record_model(machine, drive)?;
    machine.set_mark()?;
    machine.reset_adjoints()?;
    for (i, time) in turns.times.iter().enumerate() {
        let index = index_of(*time, turns.median);
        turn(machine, turned, model, index, turns.ticks_of(i))?;
    }
    machine.pass(Pass::PropagateMarkToStart, turned)?;
    Ok(Slopes {
        by_speed: machine.adjoint(model.speed)?,
        by_cell: machine.adjoint(model.cell)?,
    })
}

// An index time, if it pulls.
fn index_of(time: u32, median: u32) -> Option<u32> {
    if track::is_apart(time, median) {
        None
    } else {
        Some(time)
    }
}

impl Steps {
    // Before the first step.
    fn none(median: u32, slice: Option<usize>) -> Steps {
        let start = Drive {
            speed: TURN / median as f64,
            cell: 1.0,
        };
        Steps {
            taken: ArrayVec::new(),
            last: Step::to(start, slice),
        }
    }

    fn push(&mut self, step: Step)
        requires { array_vec_len self.old.taken < 64 }
        ensures { array_vec_len self.new.taken ≡ array_vec_len self.old.taken + 1 }
    {
        self.taken.push(Taken {
            drive: step.drive,
            misfit: step.misfit,
            edges: step.edges,
        });
        self.last = step;
    }
}

impl Step {
    // Before the first step, which is taken there.
    fn to(next: Drive, slice: Option<usize>) -> Step {
        Step {
            drive: Drive::default(),
            misfit: 0.0,
            edges: 0,
            passes: Passes::none(slice),
            next: Ok(next),
        }
    }

    // Whether the step leads no further: both parameters stay where they are.
    pub(crate) fn is_settled(self) -> bool {
        let from = self.drive;
        match self.next {
            Ok(to) => is_small(to.speed - from.speed) && is_small(to.cell - from.cell),
            Err(_) => false,
        }
    }
}

fn is_small(x: f64) -> bool {
    x < SETTLED && 0.0 - x < SETTLED
}

impl Place {
    pub(crate) fn at(drive: Drive, turns: Turns) -> Place {
        let pulling = turns
            .times
            .iter()
            .filter(|t| !track::is_apart(**t, turns.median))
            .count();
        let cells = track::pulling_cells(turns.ticks, drive.seen());
        Place {
            drive,
            intervals: std::num::nearest_usize_to_f64(turns.ticks.len()),
            turns: std::num::nearest_usize_to_f64(pulling),
            cells: std::num::nearest_usize_to_f64(cells),
        }
    }

    // A Gauss-Newton step. Of what pulls, the misfit is a parabola in the time of a turn, of curvature 2 * turns, and
    // one in the length of a cell as it is read, of curvature 2 * cells. So the slopes by speed and cell are turned into
    // slopes by these two, each of these goes to the bottom of its parabola, and the two moves are turned into moves of
    // speed and cell, all by the model's own derivatives.
    fn bottom(self, slopes: Slopes) -> Drive {
        let Slopes { by_speed, by_cell } = slopes;
        let drive = self.drive;
        let turn = 1.0 / drive.speed;
        let by_seen = by_cell / turn;
        let by_turn = 0.0 - by_speed / (turn * turn) - drive.cell * by_seen;
        let turn_move = down(by_turn, self.turns);
        let seen_move = down(by_seen, self.cells);
        let speed_move = 0.0 - turn_move / (turn * turn);
        Drive {
            speed: drive.speed + speed_move,
            cell: drive.cell + seen_move / turn + drive.cell * turn * speed_move,
        }
    }
}

// Where nothing pulls, nothing moves.
fn down(slope: f64, pull: f64) -> f64 {
    if pull > 0.0 {
        0.0 - slope / (2.0 * pull)
    } else {
        0.0
    }
}
