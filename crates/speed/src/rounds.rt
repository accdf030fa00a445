// A round: the tape is rewound, filled by its plan, and walked from its last node.
use crate::plan;
use crate::plan::{NODES, PLACES, Reach, Recording};
use dual::passes::backward;
use expr::Supplied;
use expr::recording::record;
use tape::{Handle, NodesMut, Operand, Refusal, Tape};

// What the keeper of the tape has: the plan, and the serials of its handles, whose indexes are the places where it keeps
// them.
#[derive(Drop)]
struct Keeper<'a> {
    plan: &'a [Recording; NODES],
    serials: &'a mut [u64; PLACES],
}

// The tape after a round, and the edges that its walk visited.
#[derive(Clone, Copy)]
pub struct Round {
    pub tape: Tape,
    pub edges: u32,
}

// As many rounds as asked for, and what the last one came to. Nothing is cleared between them. Apart from its caller, so
// that the plan is off the stack once a listing begins.
#[inline(never)]
pub(crate) fn repeat(
    reach: Reach,
    times: u64,
    nodes: &mut NodesMut<'_>,
    adjoint: &mut [f64],
) -> Result<Round, Refusal> {
    let mut plan = [Recording::leaf(0.0); NODES];
    plan::lay_out(reach, &mut plan);
    let mut serials = [0; PLACES];
    let mut keeper = Keeper {
        plan: &plan,
        serials: &mut serials,
    };
    let mut done = Round {
        tape: Tape::new().start_recording()?,
        edges: 0,
    };
    for _ in 0..times {
        done = keeper.one_more(done.tape, nodes, adjoint)?;
    }
    Ok(done)
}

impl Keeper<'_> {
    fn one_more(
        &mut self,
        before: Tape,
        nodes: &mut NodesMut<'_>,
        adjoint: &mut [f64],
    ) -> Result<Round, Refusal> {
        let tape = self.record_all(before, nodes, adjoint)?;
        let last = operand(Some(LAST), 0.0, &*self.serials);
        let edges = backward(tape, nodes.shared(), adjoint, last)?;
        Ok(Round { tape, edges })
    }

    fn record_all(
        &mut self,
        before: Tape,
        nodes: &mut NodesMut<'_>,
        adjoint: &mut [f64],
    ) -> Result<Tape, Refusal> {
        let plan = self.plan;
        let mut tape = before.rewind_to_init()?;
        for (i, &node) in plan.iter().enumerate() {
            let left = operand(node.left, node.plain, &*self.serials);
            let right = operand(node.right, node.plain, &*self.serials);
            let none = Supplied::NONE;
            let recorded = record(tape, nodes, adjoint, node.op, left, right, none)?;
            if let Some(handle) = recorded.handle {
                self.serials[i] = handle.serial;
            }
            tape = recorded.tape;
        }
        Ok(tape)
    }
}

// The node at a place, or else the plain number.
fn operand(at: Option<u16>, plain: f64, serials: &[u64; PLACES]) -> Operand {
    match at {
        Some(at) => Operand::Node(Handle {
            index: at as usize,
            serial: serials[at as usize],
        }),
        None => Operand::Number(plain),
    }
}

// The last node's place.
const LAST: u16 = NODES as u16 - 1;
