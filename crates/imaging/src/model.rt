// The drive model.
use crate::machine::{Machine, Made};
use expr::{DIVIDE, MULTIPLY};
use tape::{Operand, Refusal};

// The two parameters, relative to 300 rpm and to bit cells of 2,000 ns.
#[derive(Clone, Copy, Default)]
pub struct Drive {
    pub speed: f64,
    pub cell: f64,
}

impl Drive {
    // How long a cell is as this drive reads it, to the bit as the model records it.
    pub(crate) fn seen(self) -> f64 {
        self.cell * (1.0 / self.speed)
    }
}

// The model's nodes: the two parameters, the time of a turn relative to nominal, and how long a cell is as this drive
// reads it.
#[derive(Clone, Copy)]
pub struct Model {
    pub speed: Operand,
    pub cell: Operand,
    pub turn: Operand,
    pub seen: Made,
}

pub const MODEL_NODES: usize = 4;

pub(crate) fn record_model(machine: &mut Machine, drive: Drive) -> Result<Model, Refusal> {
    let speed = machine.leaf(drive.speed)?.x;
    let cell = machine.leaf(drive.cell)?.x;
    let turn = machine.record(DIVIDE, Operand::Number(1.0), speed)?.x;
    let seen = machine.record(MULTIPLY, cell, turn)?;
    Ok(Model {
        speed,
        cell,
        turn,
        seen,
    })
}
