// Reads: what stands behind a number or a handle.
ghost use Rattle.std.specs.Prelude.{◌≤◌, ◌≡◌, length};
ghost use Rattle.tape.specs.Machine.{machine, lent};
ghost use Rattle.tape.specs.Handles.{operand};
ghost use Rattle.tape.specs.Calls.{value_of, adjoint_of, is_live};
ghost use Rattle.tape.specs.Steps.{step};
ghost use Rattle.dual.specs.Outcome.{read_outcome, liveness_outcome};
ghost use Rattle.dual.specs.Inner.{behind_node};

use tape::{Caller, Handle, Lengths, Lookup, Nodes, Operand, Refusal, Tape};

// The value of a number, which is the number, or of the node behind a handle. Refuses 1, 12 while a walk is open, 3 for
// a stale handle and 11 for one that was never issued.
pub fn value(tape: Tape, nodes: Nodes<'_>, adjoint: &[f64], x: Operand) -> Result<f64, Refusal>
    ensures { read_outcome result (machine tape (lent nodes.entry adjoint.now))
        ≡ step (value_of (operand x)) (machine tape (lent nodes.entry adjoint.now)) }
{
    tape.admit(Caller::Value, Lengths::of(nodes, adjoint))?;
    match x {
        Operand::Number(number) => Ok(number),
        Operand::Node(handle) => behind(handle, tape, nodes.serial, nodes.value),
    }
}

// The adjoint of the node behind a handle; while a walk is open, as the slices so far have left it. Refuses 1, 3 for a
// stale handle, 11 for one that was never issued, and 4 for a number.
pub fn adjoint(tape: Tape, nodes: Nodes<'_>, adjoint: &[f64], x: Operand) -> Result<f64, Refusal>
    ensures { read_outcome result (machine tape (lent nodes.entry adjoint.now))
        ≡ step (adjoint_of (operand x)) (machine tape (lent nodes.entry adjoint.now)) }
{
    tape.admit(Caller::Adjoint, Lengths::of(nodes, adjoint))?;
    match x {
        Operand::Number(_) => Err(Refusal::Detached),
        Operand::Node(handle) => behind(handle, tape, nodes.serial, adjoint),
    }
}

// What a lookup finds behind a handle: it is live, stale or was never issued. A number has no node, and none is looked
// up. Refuses 1, and 12 while a walk is open.
pub fn is_live(
    tape: Tape,
    nodes: Nodes<'_>,
    adjoint: &[f64],
    x: Operand,
) -> Result<Option<Lookup>, Refusal>
    ensures { liveness_outcome result (machine tape (lent nodes.entry adjoint.now))
        ≡ step (is_live (operand x)) (machine tape (lent nodes.entry adjoint.now)) }
{
    tape.admit(Caller::Liveness, Lengths::of(nodes, adjoint))?;
    match x {
        Operand::Number(_) => Ok(None),
        Operand::Node(handle) => Ok(Some(handle.lookup(tape, nodes.serial))),
    }
}

// What one of the arrays holds at a handle's node.
fn behind(handle: Handle, tape: Tape, serial: &[u64], held: &[f64]) -> Result<f64, Refusal>
    requires { tape.length ≤ length held.now }
    ensures { result ≡ behind_node tape serial.now held.now handle }
{
    handle.usable(tape, serial)?;
    Ok(held[handle.index])
}
