// An operation recorded by the port on a tape of its own, and the node that comes of it.
use crate::machine::{NO_CHILD, NO_COUNT, UNLIKELY};
use expr::Supplied;
use expr::recording::record;
use listing::{bits_of, float_of};
use std::fmt;
use tape::{Handle, MOST_EDGES, Nodes, NodesMut, Operand, Refusal, Tape};

// Two operands, the node, and one to spare.
const CAPACITY: usize = 4;

const SLOTS: usize = MOST_EDGES * CAPACITY;

const FIRST: Handle = Handle {
    index: 0,
    serial: 1,
};

const SECOND: Handle = Handle {
    index: 1,
    serial: 2,
};

// An operand as a case has it: the word of its value, and whether it stands on the tape. The word stands beside the
// flag, since a leaf and a plain number both have it.
#[derive(Clone, Copy)]
pub struct Given {
    pub on_tape: bool,
    pub bits: u64,
}

#[derive(Clone, Copy, PartialEq, Eq)]
pub struct Edge {
    pub child: u16,
    pub partial: u64,
}

// The word of a node's value, how many edges it has, and these. The port's count is kept as the port wrote it, and may
// be more than there are edges.
#[derive(Clone, Copy)]
pub struct Node {
    pub value: u64,
    pub count: u8,
    pub edges: [Edge; MOST_EDGES],
}

// The value, and each edge's partial and child.
impl fmt::Display for Node {
    fn fmt<W: fmt::Write>(&self, f: &mut fmt::Formatter<W>) -> fmt::Result {
        let value = self.value;
        write!(f, " {value:016x}")?;
        for Edge { child, partial } in self.edges.iter().take(usize::from(self.count)) {
            write!(f, " {partial:016x} to {child}")?;
        }
        Ok(())
    }
}

// Records the operation beside two leaves: the first has the value of the first operand that is on the tape, the second
// that of the right one. A node that lies past the arrays is none.
pub(crate) fn carry_out(
    op: u8,
    left: Given,
    right: Given,
    supplied: Supplied,
) -> Result<Option<Node>, Refusal> {
    let first = if left.on_tape { left.bits } else { right.bits };
    let mut value = [UNLIKELY; CAPACITY];
    value[0] = float_of(first);
    value[1] = float_of(right.bits);
    let mut nodes = NodesMut {
        value: &mut value,
        serial: &mut [1, 2, 0, 0],
        count: &mut [NO_COUNT; CAPACITY],
        child: &mut [NO_CHILD; SLOTS],
        partial: &mut [UNLIKELY; SLOTS],
    };
    let recorded = record(
        two_leaves(),
        &mut nodes,
        &mut [UNLIKELY; CAPACITY],
        op,
        operand(left, FIRST),
        operand(right, if left.on_tape { SECOND } else { FIRST }),
        supplied,
    )?;
    let index = recorded.handle.map(|node| node.index);
    Ok(index.and_then(|index| node_at(nodes.shared(), index, recorded.value)))
}

// The tape as two leaves leave it.
fn two_leaves() -> Tape {
    Tape {
        length: 2,
        active: true,
        next: 3,
        ..Tape::new()
    }
}

// The operand as the port takes it, this leaf where it is on the tape.
fn operand(given: Given, leaf: Handle) -> Operand {
    if given.on_tape {
        Operand::Node(leaf)
    } else {
        Operand::Number(float_of(given.bits))
    }
}

fn node_at(nodes: Nodes<'_>, index: usize, value: f64) -> Option<Node> {
    let count = *nodes.count.get(index)?;
    let first = index.checked_mul(MOST_EDGES)?;
    Some(Node {
        value: bits_of(value),
        count,
        edges: [edge_at(nodes, first)?, edge_at(nodes, first + 1)?],
    })
}

fn edge_at(nodes: Nodes<'_>, at: usize) -> Option<Edge> {
    Some(Edge {
        child: *nodes.child.get(at)?,
        partial: bits_of(*nodes.partial.get(at)?),
    })
}
