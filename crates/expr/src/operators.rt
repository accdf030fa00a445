// The two recordings that the Rust has as methods of their own: both record a leaf, or answer the value alone while the
// tape is inactive, and refuse as `record` does.
ghost use Rattle.std.specs.Prelude.{◌≡◌};
ghost use Rattle.tape.specs.Machine.{SameArrays, lent_mut, machine};
ghost use Rattle.tape.specs.Handles.{operand};
ghost use Rattle.tape.specs.Steps.{step};
ghost use Rattle.expr.specs.Outcome.{outcome};
ghost use Rattle.expr.specs.Operators.{new_leaf, put_on_tape};

use crate::operations::{LEAF, Supplied};
use crate::recording::Recorded;
use tape::{NodesMut, Operand, Refusal, Tape};

// Records a plain number as a leaf.
pub fn new_leaf(
    tape: Tape,
    nodes: &mut NodesMut<'_>,
    adjoint: &mut [f64],
    x: f64,
) -> Result<Recorded, Refusal>
    ensures step { outcome result tape (lent_mut nodes.new adjoint.new)
        ≡ step (new_leaf x) (machine tape (lent_mut nodes.old adjoint.old)) }
    ensures same { SameArrays nodes.old nodes.new }
{
    put_on_tape(tape, nodes, adjoint, Operand::Number(x))
}

// Records a value again, as a leaf: a node of its own, with no edge to where the value came from.
pub fn put_on_tape(
    tape: Tape,
    nodes: &mut NodesMut<'_>,
    adjoint: &mut [f64],
    x: Operand,
) -> Result<Recorded, Refusal>
    ensures step { outcome result tape (lent_mut nodes.new adjoint.new)
        ≡ step (put_on_tape (operand x)) (machine tape (lent_mut nodes.old adjoint.old)) }
    ensures same { SameArrays nodes.old nodes.new }
{
    crate::recording::record(
        tape,
        nodes,
        adjoint,
        LEAF,
        x,
        Operand::Number(0.0),
        Supplied::NONE,
    )
}
