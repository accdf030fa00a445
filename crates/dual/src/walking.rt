// The walk: the chain rule over a range of nodes, from the highest down.
ghost use Rattle.std.specs.Prelude.{◌≡◌, get_or};
ghost use Rattle.std.specs.Float.{nan};
ghost use Rattle.tape.specs.Machine.{lent};
ghost use Rattle.tape.specs.Walk.{push, edges_at};
ghost use Rattle.dual.specs.Inner.{Walkable, NodeRoom, walked_back, visits};

use tape::{MOST_EDGES, Nodes, Span};

// Passes each node's adjoint to its children, and tells how many edges that were.
pub(crate) fn walk(span: Span, nodes: Nodes<'_>, adjoint: &mut [f64]) -> u32
    requires { Walkable span nodes adjoint.old }
    ensures adjoint_after { adjoint.new ≡ walked_back span nodes.entry adjoint.old }
    ensures value { result ≡ visits span nodes.entry }
{
    let mut visited = 0;
    // By index: a node's edges stand at twice it, and the adjoints below it are written; document 01 goes downwards.
    for i in (span.from..span.end).rev() {
        visited += nodes.count[i] as u32;
        push(i, nodes, adjoint);
    }
    visited
}

// One node: child adjoint = child adjoint + (partial * node adjoint), edge by edge.
fn push(i: usize, nodes: Nodes<'_>, adjoint: &mut [f64])
    requires { NodeRoom i nodes adjoint.old }
    ensures { adjoint.new
        ≡ push (get_or adjoint.old i nan) (edges_at (lent nodes.entry adjoint.old) i) adjoint.old }
{
    let node_adjoint = adjoint[i];
    let first = MOST_EDGES * i;
    let end = first + nodes.count[i] as usize;
    // By slot: a zip of the two arrays' parts would be no plainer, and the promise counts edges from a slot on.
    for slot in first..end {
        let at = nodes.child[slot] as usize;
        adjoint[at] += nodes.partial[slot] * node_adjoint;
    }
}
