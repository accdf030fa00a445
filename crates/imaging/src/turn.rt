// A turn, part by part: the misfit of a part is recorded behind the mark, passed back to it, and dropped.
use crate::machine::{Machine, Made};
use crate::model::Model;
use crate::passes::Passes;
use dual::Pass;
use expr::{ADD, MIN, MULTIPLY, SUBTRACT};
use tape::{Operand, Refusal};
use track::TURN;

// The nodes of an index time and of an interval.
pub const INDEX_NODES: usize = 2;

pub const INTERVAL_NODES: usize = 5;

// What turns came to.
#[derive(Clone, Copy)]
pub struct Turned {
    pub misfit: f64,
    pub edges: u64,
    pub passes: Passes,
}

impl Turned {
    // Before the first turn.
    pub(crate) fn none(passes: Passes) -> Turned {
        Turned {
            misfit: 0.0,
            edges: 0,
            passes,
        }
    }

    pub(crate) fn count_edges(&mut self, edges: u32) {
        self.edges = self.edges.saturating_add(u64::from(edges));
    }
}

// The last part first: the walk then meets the intervals in the same order as if the turn were one part.
pub(crate) fn turn(
    machine: &mut Machine,
    turned: &mut Turned,
    model: Model,
    index: Option<u32>,
    ticks: &[u32],
) -> Result<(), Refusal> {
    for i in (0..track::part_count(ticks.len())).rev() {
        // By `part_at` and no `chunks`: the laws of parts speak of it.
        let part = track::part_at(ticks.len(), i);
        // The index time goes with the first part.
        let index = if i == 0 { index } else { None };
        let misfit = record_misfit(machine, model, index, &ticks[part.from..part.end])?;
        turned.misfit += misfit.number;
        machine.pass(Pass::BackwardToMark(misfit.x), turned)?;
        machine.rewind_to_mark()?;
    }
    Ok(())
}

// The index time, and then every interval.
fn record_misfit(
    machine: &mut Machine,
    model: Model,
    index: Option<u32>,
    ticks: &[u32],
) -> Result<Made, Refusal> {
    let mut sum = Made {
        x: Operand::Number(0.0),
        number: 0.0,
    };
    if let Some(time) = index {
        sum = record_index(machine, model, time)?;
    }
    for &interval in ticks {
        sum = record_interval(machine, model, sum, interval)?;
    }
    Ok(sum)
}

// The square of how far the index time is off, in turns.
fn record_index(machine: &mut Machine, model: Model, time: u32) -> Result<Made, Refusal> {
    let turns = Operand::Number(time as f64 / TURN);
    let off = machine.record(SUBTRACT, turns, model.turn)?.x;
    machine.record(MULTIPLY, off, off)
}

// The square of how far the interval is off, over its cells, up to the clip, and added to the sum. `track::is_off` asks
// whether the same square is above the clip.
fn record_interval(
    machine: &mut Machine,
    model: Model,
    sum: Made,
    ticks: u32,
) -> Result<Made, Refusal> {
    let weighed = track::weigh(ticks, model.seen.number);
    let root = Operand::Number(weighed.root);
    let scaled = machine.record(MULTIPLY, model.seen.x, root)?.x;
    let off = machine
        .record(SUBTRACT, Operand::Number(weighed.scaled), scaled)?
        .x;
    let square = machine.record(MULTIPLY, off, off)?.x;
    let clip = Operand::Number(weighed.clip);
    let clipped = machine.record(MIN, square, clip)?.x;
    machine.record(ADD, sum.x, clipped)
}
