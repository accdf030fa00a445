// The tape of the fit, with the arrays that are lent for it, and the calls of it.
use crate::turn::Turned;
use dual::{Pass, Sliced};
use expr::{LEAF, Supplied};
use tape::{MOST_EDGES, MOST_NODES, Nodes, NodesMut, Operand, Refusal, Tape};

// The tape has room for the model and one part of a turn. A small one stays in the processor's cache.
const NODES: usize = crate::model::MODEL_NODES
    + crate::turn::INDEX_NODES
    + crate::turn::INTERVAL_NODES * track::PART;

const SLOTS: usize = MOST_EDGES * NODES;

#[derive(Drop)]
pub struct Machine {
    tape: Tape,
    nodes: Recordings,
    adjoint: [f64; NODES],
}

// What is recorded of the nodes, an array for each part, as a tape is lent them.
#[derive(Drop)]
struct Recordings {
    value: [f64; NODES],
    serial: [u64; NODES],
    count: [u8; NODES],
    child: [u16; SLOTS],
    partial: [f64; SLOTS],
}

// What was recorded last, as an operand and as a number.
#[derive(Clone, Copy)]
pub struct Made {
    pub x: Operand,
    pub number: f64,
}

impl Machine {
    pub(crate) fn new() -> Machine {
        Machine {
            tape: Tape::new(),
            nodes: Recordings {
                value: [0.0; NODES],
                serial: [0; NODES],
                count: [0; NODES],
                child: [0; SLOTS],
                partial: [0.0; SLOTS],
            },
            adjoint: [0.0; NODES],
        }
    }

    pub(crate) fn start_recording(&mut self) -> Result<(), Refusal> {
        self.tape = self.tape.start_recording()?;
        Ok(())
    }

    pub(crate) fn set_mark(&mut self) -> Result<(), Refusal> {
        self.tape = self.tape.set_mark()?;
        Ok(())
    }

    pub(crate) fn rewind_to_mark(&mut self) -> Result<(), Refusal> {
        self.tape = self.tape.rewind_to_mark()?;
        Ok(())
    }

    pub(crate) fn leaf(&mut self, x: f64) -> Result<Made, Refusal> {
        self.record(LEAF, Operand::Number(x), Operand::Number(0.0))
    }

    // Records an operation, and keeps the state after it.
    pub(crate) fn record(
        &mut self,
        operation: u8,
        left: Operand,
        right: Operand,
    ) -> Result<Made, Refusal> {
        let mut nodes = NodesMut {
            value: &mut self.nodes.value,
            serial: &mut self.nodes.serial,
            count: &mut self.nodes.count,
            child: &mut self.nodes.child,
            partial: &mut self.nodes.partial,
        };
        let adjoint = &mut self.adjoint;
        let none = Supplied::NONE;
        let recorded = expr::recording::record(
            self.tape, &mut nodes, adjoint, operation, left, right, none,
        )?;
        self.tape = recorded.tape;
        Ok(Made {
            // A number alone is of an inactive tape, which this program does not have; as a root it would be refused.
            x: recorded
                .handle
                .map_or(Operand::Number(recorded.value), Operand::Node),
            number: recorded.value,
        })
    }

    pub(crate) fn reset_adjoints(&mut self) -> Result<(), Refusal> {
        let nodes = self.nodes.shared();
        dual::clearing::reset_adjoints(self.tape, nodes, &mut self.adjoint)
    }

    pub(crate) fn adjoint(&self, x: Operand) -> Result<f64, Refusal> {
        dual::reading::adjoint(self.tape, self.nodes.shared(), &self.adjoint, x)
    }

    // Passes in one go or in slices, and counts in `turned` what the pass came to.
    pub(crate) fn pass(&mut self, which: Pass, turned: &mut Turned) -> Result<(), Refusal> {
        if let Some(nodes) = turned.passes.slice {
            return self.pass_in_slices(which, nodes, turned);
        }
        let nodes = self.nodes.shared();
        let edges = dual::passes::run(which, self.tape, nodes, &mut self.adjoint)?;
        turned.count_edges(edges);
        Ok(())
    }

    // The reader's motor can be served after the pass is opened, and on each turn of the loop. A slice takes a node at
    // least, so that a pass has no more slices than a tape has nodes.
    fn pass_in_slices(
        &mut self,
        which: Pass,
        nodes: usize,
        turned: &mut Turned,
    ) -> Result<(), Refusal> {
        let mut left = self.open_pass(which)?;
        for _ in 0..MOST_NODES {
            if left == 0 {
                break;
            }
            let taken = self.take_slice(nodes)?;
            turned.count_edges(taken.visited);
            turned.passes.count_slice(left.saturating_sub(taken.left));
            left = taken.left;
        }
        Ok(())
    }

    // How many nodes the pass has, all of them left to slices.
    fn open_pass(&mut self, which: Pass) -> Result<usize, Refusal> {
        let nodes = self.nodes.shared();
        let opened = dual::slicing::open_pass(self.tape, nodes, &mut self.adjoint, which)?;
        self.tape = opened.tape;
        Ok(opened.left)
    }

    fn take_slice(&mut self, nodes_asked: usize) -> Result<Sliced, Refusal> {
        let nodes = self.nodes.shared();
        let taken = dual::slicing::take_slice(self.tape, nodes, &mut self.adjoint, nodes_asked)?;
        self.tape = taken.tape;
        Ok(taken)
    }
}

impl Recordings {
    fn shared(&self) -> Nodes<'_> {
        Nodes {
            value: &self.value,
            serial: &self.serial,
            count: &self.count,
            child: &self.child,
            partial: &self.partial,
        }
    }
}
