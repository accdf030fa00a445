// Recording one operation: refusals are settled first, in document 01's order, and the node is written after.
ghost use Rattle.std.specs.Prelude.{◌≤◌, ◌<◌, ◌≡◌, true};
ghost use Rattle.tape.specs.Machine.{SameArrays, lent, lent_mut, machine, most_nodes};
ghost use Rattle.tape.specs.Handles.{operand};
ghost use Rattle.tape.specs.Calls.{operate, with_node};
ghost use Rattle.tape.specs.Admission.{fits};
ghost use Rattle.tape.specs.Refusals.{last_serial};
ghost use Rattle.tape.specs.Steps.{step};
ghost use Rattle.expr.specs.Outcome.{given, outcome};
ghost use Rattle.expr.specs.Inner.{Room, node_said, decided, row_made, usable_operand, operand_value_in, edge_list, appended, recorded_if_room, appended_said};

use crate::edges::{Edge, Edges};
use crate::operations::{Row, Supplied};
use tape::{Caller, Handle, Lengths, MOST_EDGES, Nodes, NodesMut, Operand, Refusal, Tape};

// What a recording answers: a value, its node's handle unless the tape is inactive, and the state after it.
#[derive(Clone, Copy)]
pub struct Recorded {
    pub value: f64,
    pub handle: Option<Handle>,
    pub tape: Tape,
}

// Records operation op on its operands. Refuses what does not fit (1), any recording while a walk is open (12), an
// unknown operation (2), a used operand that is stale (3) or was never issued (11), the left one before the right, and,
// while active, a full tape (5) or spent serials (6). Other slices could be put in `nodes`; that none is, `same` says.
pub fn record(
    tape: Tape,
    nodes: &mut NodesMut<'_>,
    adjoint: &mut [f64],
    op: u8,
    left: Operand,
    right: Operand,
    supplied: Supplied,
) -> Result<Recorded, Refusal>
    ensures step { outcome result tape (lent_mut nodes.new adjoint.new)
        ≡ step (operate op (operand left) (operand right) (given supplied))
        (machine tape (lent_mut nodes.old adjoint.old)) }
    ensures same { SameArrays nodes.old nodes.new }
{
    let node = decide(tape, nodes.shared(), &*adjoint, op, left, right, supplied)?;
    record_if_room(tape, nodes, adjoint, node)
}

// What the operation and its operands come to, before the tape is asked for room.
#[derive(Clone, Copy)]
pub(crate) struct NewNode {
    pub value: f64,
    pub edges: Edges,
}

fn decide(
    tape: Tape,
    nodes: Nodes<'_>,
    adjoint: &[f64],
    op: u8,
    left: Operand,
    right: Operand,
    supplied: Supplied,
) -> Result<NewNode, Refusal>
    ensures { node_said result
        ≡ decided (machine tape (lent nodes.entry adjoint.now)) op left right supplied }
{
    tape.admit(Caller::Recording, Lengths::of(nodes, adjoint))?;
    let l = operand_value(left, nodes.value);
    let r = operand_value(right, nodes.value);
    let row = crate::operations::apply(op, l, r, supplied).ok_or(Refusal::UnknownOperation)?;
    make(tape, nodes.serial, row, left, right)
}

// A number's value, or the value at a handle's index, live or not; past the end there is none.
fn operand_value(x: Operand, value: &[f64]) -> f64
    ensures { result ≡ operand_value_in value.now x }
{
    match x {
        Operand::Number(v) => v,
        Operand::Node(handle) => value.get(handle.index).copied().unwrap_or(f64::NAN),
    }
}

// The node that a row makes of its operands, of which those that it uses have to be live. The left operand's refusal
// comes first. That the length is small is no invariant of `Tape`: one that does not fit is a state too, and refused 1.
fn make(
    tape: Tape,
    serial: &[u64],
    row: Row,
    left: Operand,
    right: Operand,
) -> Result<NewNode, Refusal>
    requires { tape.length ≤ most_nodes }
    ensures { node_said result ≡ row_made row (usable_operand tape serial.now left) (usable_operand tape serial.now right) left right }
{
    match row {
        Row::Leaf(value) => {
            usable(left, tape, serial)?;
            let edges = Edges::NONE;
            Ok(NewNode { value, edges })
        }
        Row::One(value, p) => {
            let edges = Edges {
                left: Edge::to(left, p, tape, serial)?,
                right: None,
            };
            Ok(NewNode { value, edges })
        }
        Row::Two(value, p, q) => {
            let left = Edge::to(left, p, tape, serial)?;
            let right = Edge::to(right, q, tape, serial)?;
            let edges = Edges { left, right };
            Ok(NewNode { value, edges })
        }
    }
}

// A number is usable, and a handle that is live.
fn usable(x: Operand, tape: Tape, serial: &[u64]) -> Result<(), Refusal>
    ensures { result ≡ usable_operand tape serial.now x }
{
    match x {
        Operand::Number(_) => Ok(()),
        Operand::Node(handle) => handle.usable(tape, serial),
    }
}

// ---- the write

// Keeps the node if the tape is active and has room for it.
fn record_if_room(
    tape: Tape,
    nodes: &mut NodesMut<'_>,
    adjoint: &mut [f64],
    node: NewNode,
) -> Result<Recorded, Refusal>
    requires { fits true (machine tape (lent_mut nodes.old adjoint.old)) ≡ true }
    ensures step { outcome result tape (lent_mut nodes.new adjoint.new)
        ≡ recorded_if_room (machine tape (lent_mut nodes.old adjoint.old)) node.value (edge_list node.edges) }
    ensures same { SameArrays nodes.old nodes.new }
{
    if !tape.active {
        return Ok(Recorded {
            value: node.value,
            handle: None,
            tape,
        });
    }
    if tape.length == nodes.value.len() {
        return Err(Refusal::Full);
    }
    // The last serial is never given out, so that the next one fits.
    if tape.next == u64::MAX {
        return Err(Refusal::SerialsSpent);
    }
    Ok(append(tape, nodes, adjoint, node))
}

fn append(tape: Tape, nodes: &mut NodesMut<'_>, adjoint: &mut [f64], node: NewNode) -> Recorded
    requires { (tape.next < last_serial) × Room tape.length (lent_mut nodes.old adjoint.old) }
    ensures step { appended_said result (lent_mut nodes.new adjoint.new)
        ≡ appended (machine tape (lent_mut nodes.old adjoint.old)) node.value (edge_list node.edges) }
    ensures same { SameArrays nodes.old nodes.new }
{
    let handle = Handle {
        index: tape.length,
        serial: tape.next,
    };
    write(handle, nodes, adjoint, node);
    let after = Tape {
        length: tape.length + 1,
        next: tape.next + 1,
        ..tape
    };
    Recorded {
        value: node.value,
        handle: Some(handle),
        tape: after,
    }
}

fn write(handle: Handle, nodes: &mut NodesMut<'_>, adjoint: &mut [f64], node: NewNode)
    requires { Room handle.index (lent_mut nodes.old adjoint.old) }
    ensures after { lent_mut nodes.new adjoint.new
        ≡ with_node handle (lent_mut nodes.old adjoint.old) node.value (edge_list node.edges) }
    ensures same { SameArrays nodes.old nodes.new }
{
    let at = handle.index;
    nodes.value[at] = node.value;
    adjoint[at] = 0.0;
    nodes.serial[at] = handle.serial;
    let child = &mut *nodes.child;
    let partial = &mut *nodes.partial;
    let count = node.edges.write(MOST_EDGES * at, child, partial);
    nodes.count[at] = count;
}
