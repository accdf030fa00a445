// A full tape whose nodes have edges: the powers of a number, each the one before it times the first.
use crate::lent::Lent;
use expr::{MULTIPLY, Recorded};
use tape::{Handle, MOST_NODES, Operand, Refusal};

// So near to 1 that its powers stay far from 0, and with so many digits that they are rounded.
const X: f64 = 0.9999;

// The first and the last power. Every adjoint is made of the one above it, and the first node's is a sum over all of
// them, so that a node left out, walked twice or out of order shows.
#[derive(Clone, Copy)]
pub struct Powers {
    pub first: Handle,
    pub last: Handle,
}

pub(crate) fn fill(lent: &mut Lent<'_>) -> Result<Powers, Refusal> {
    let first = handle_of(lent.leaf(X)?);
    let mut last = first;
    for _ in 1..MOST_NODES {
        last = handle_of(lent.record(MULTIPLY, Operand::Node(last), Operand::Node(first))?);
    }
    Ok(Powers { first, last })
}

// Of a power with no node, a handle that the next call refuses.
fn handle_of(power: Recorded) -> Handle {
    power.handle.unwrap_or(Handle::NEVER_LIVE)
}
