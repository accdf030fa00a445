// A tape with the arrays that it is lent. Each call takes the state that the last one left, and leaves its own here.
use dual::clearing::reset_adjoints;
use dual::passes::run;
use dual::slicing::{open_pass, take_slice};
use dual::{Pass, Sliced, reading};
use expr::operators::new_leaf;
use expr::recording::record;
use expr::{Recorded, Supplied};
use listing::listing::list;
use tape::{Lookup, NodesMut, Operand, Refusal, Tape};

#[derive(Drop)]
pub struct Lent<'a> {
    pub tape: Tape,
    pub nodes: NodesMut<'a>,
    pub adjoint: &'a mut [f64],
}

impl Lent<'_> {
    pub(crate) fn capacity(&self) -> usize {
        self.nodes.value.len()
    }

    pub(crate) fn leaf(&mut self, x: f64) -> Result<Recorded, Refusal> {
        let recorded = new_leaf(self.tape, &mut self.nodes, &mut *self.adjoint, x)?;
        self.tape = recorded.tape;
        Ok(recorded)
    }

    pub(crate) fn record(
        &mut self,
        op: u8,
        left: Operand,
        right: Operand,
    ) -> Result<Recorded, Refusal> {
        let nodes = &mut self.nodes;
        let adjoint = &mut *self.adjoint;
        let recorded = record(self.tape, nodes, adjoint, op, left, right, Supplied::NONE)?;
        self.tape = recorded.tape;
        Ok(recorded)
    }

    pub(crate) fn clear(&mut self) -> Result<(), Refusal> {
        reset_adjoints(self.tape, self.nodes.shared(), &mut *self.adjoint)
    }

    pub(crate) fn pass(&mut self, pass: Pass) -> Result<u32, Refusal> {
        run(pass, self.tape, self.nodes.shared(), &mut *self.adjoint)
    }

    pub(crate) fn open(&mut self, pass: Pass) -> Result<Sliced, Refusal> {
        let sliced = open_pass(self.tape, self.nodes.shared(), &mut *self.adjoint, pass)?;
        self.tape = sliced.tape;
        Ok(sliced)
    }

    pub(crate) fn slice(&mut self, nodes: usize) -> Result<Sliced, Refusal> {
        let sliced = take_slice(self.tape, self.nodes.shared(), &mut *self.adjoint, nodes)?;
        self.tape = sliced.tape;
        Ok(sliced)
    }

    pub(crate) fn value(&self, x: Operand) -> Result<f64, Refusal> {
        reading::value(self.tape, self.nodes.shared(), &*self.adjoint, x)
    }

    pub(crate) fn adjoint_of(&self, x: Operand) -> Result<f64, Refusal> {
        reading::adjoint(self.tape, self.nodes.shared(), &*self.adjoint, x)
    }

    pub(crate) fn is_live(&self, x: Operand) -> Result<Option<Lookup>, Refusal> {
        reading::is_live(self.tape, self.nodes.shared(), &*self.adjoint, x)
    }

    pub(crate) fn list(&self, out: &mut [u8]) -> Result<usize, Refusal> {
        list(self.tape, self.nodes.shared(), &*self.adjoint, out)
    }
}
