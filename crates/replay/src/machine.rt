// A tape, with the arrays that are lent for it, and the calls of it.
use crate::said::Digests;
use crate::words::digest;
use dual::passes::{
    backward, backward_mark_to_start, backward_to_mark, propagate_mark_to_start, propagate_to_mark,
};
use dual::{Pass, Sliced};
use expr::{Recorded, Supplied};
use tape::{Handle, Lookup, NodesMut, Operand, Refusal, Tape};

// What the arrays hold at first, no count or child that a node here can have and an unlikely float, so that what the
// port leaves unwritten is seen.
pub const NO_COUNT: u8 = 0xff;

pub const NO_CHILD: u16 = 0xffff;

pub const UNLIKELY: f64 = 0.7;

// More nodes than a sequence has on the tape.
pub const CAPACITY: usize = 400;

pub const SLOTS: usize = 2 * CAPACITY;

// The arrays stand with the caller, where they are filled: a struct that held them would be moved.
#[derive(Drop)]
pub struct Machine<'a> {
    pub tape: Tape,
    pub nodes: NodesMut<'a>,
    pub adjoint: &'a mut [f64],
}

impl Machine<'_> {
    // Records an operation, and keeps the state after it.
    pub(crate) fn record(
        &mut self,
        op: u8,
        left: Operand,
        right: Operand,
        given: Supplied,
    ) -> Result<Recorded, Refusal> {
        let nodes = &mut self.nodes;
        let adjoint = &mut *self.adjoint;
        let recorded = expr::recording::record(self.tape, nodes, adjoint, op, left, right, given)?;
        self.tape = recorded.tape;
        Ok(recorded)
    }

    // By the five calls and not by `run`, since each of them is compared with the Rust's.
    pub(crate) fn in_one_go(&mut self, pass: Pass) -> Result<u32, Refusal> {
        let tape = self.tape;
        let nodes = self.nodes.shared();
        let adjoint = &mut *self.adjoint;
        match pass {
            Pass::Backward(root) => backward(tape, nodes, adjoint, root),
            Pass::BackwardToMark(root) => backward_to_mark(tape, nodes, adjoint, root),
            Pass::BackwardMarkToStart(root) => backward_mark_to_start(tape, nodes, adjoint, root),
            Pass::PropagateToMark => propagate_to_mark(tape, nodes, adjoint),
            Pass::PropagateMarkToStart => propagate_mark_to_start(tape, nodes, adjoint),
        }
    }

    // Opens a pass, and keeps the state after it.
    pub(crate) fn open_pass(&mut self, pass: Pass) -> Result<Sliced, Refusal> {
        let nodes = self.nodes.shared();
        let sliced = dual::slicing::open_pass(self.tape, nodes, &mut *self.adjoint, pass)?;
        self.tape = sliced.tape;
        Ok(sliced)
    }

    // Takes a slice, and keeps the state after it.
    pub(crate) fn take_slice(&mut self, size: usize) -> Result<Sliced, Refusal> {
        let nodes = self.nodes.shared();
        let sliced = dual::slicing::take_slice(self.tape, nodes, &mut *self.adjoint, size)?;
        self.tape = sliced.tape;
        Ok(sliced)
    }

    pub(crate) fn reset_adjoints(&mut self) -> Result<(), Refusal> {
        let nodes = self.nodes.shared();
        dual::clearing::reset_adjoints(self.tape, nodes, &mut *self.adjoint)
    }

    pub(crate) fn value(&self, x: Operand) -> Result<f64, Refusal> {
        dual::reading::value(self.tape, self.nodes.shared(), &*self.adjoint, x)
    }

    pub(crate) fn adjoint(&self, x: Operand) -> Result<f64, Refusal> {
        dual::reading::adjoint(self.tape, self.nodes.shared(), &*self.adjoint, x)
    }

    pub(crate) fn is_live(&self, x: Operand) -> Result<Option<Lookup>, Refusal> {
        dual::reading::is_live(self.tape, self.nodes.shared(), &*self.adjoint, x)
    }

    // The handle of the node at index 0, which is live while a walk is open.
    pub(crate) fn first_node(&self) -> Handle {
        Handle {
            index: 0,
            serial: self.nodes.serial.first().copied().unwrap_or(0),
        }
    }

    // Of the first values and adjoints.
    pub(crate) fn digests(&self, length: usize) -> Digests {
        Digests {
            values: digest(&*self.nodes.value, length),
            adjoints: digest(&*self.adjoint, length),
        }
    }
}
