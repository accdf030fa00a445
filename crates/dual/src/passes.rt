// The five reverse passes. Each plans first, which settles every refusal, and then walks. While a walk in slices is open
// each is refused 12. Each has a call of its own, which document 01 names, and tells `run` in one line what to do.
ghost use Rattle.std.specs.Prelude.{◌≡◌};
ghost use Rattle.tape.specs.Numbers.{floats};
ghost use Rattle.tape.specs.Machine.{machine, lent};
ghost use Rattle.tape.specs.Handles.{operand};
ghost use Rattle.tape.specs.Calls.{pass, backward, backward_to_mark, backward_mark_to_start, propagate_to_mark, propagate_mark_to_start, seeded};
ghost use Rattle.tape.specs.Steps.{step};
ghost use Rattle.dual.specs.Outcome.{pass_of, pass_outcome};
ghost use Rattle.dual.specs.Inner.{Below, operands_of, Ready, carried_out, visits};

use crate::planning::Plan;
use tape::{Handle, Nodes, Operand, Refusal, Tape};

// The five passes, under the names of their calls, with the root of those that have one.
#[derive(Clone, Copy)]
pub enum Pass {
    Backward(Operand),
    BackwardToMark(Operand),
    BackwardMarkToStart(Operand),
    PropagateToMark,
    PropagateMarkToStart,
}

// Sets the root's adjoint to one and walks from it down to the first node. Tells how many edges it visited. Refuses 1,
// 12, the root (3 or 11, and 4 for a number), and 7.
pub fn backward(
    tape: Tape,
    nodes: Nodes<'_>,
    adjoint: &mut [f64],
    root: Operand,
) -> Result<u32, Refusal>
    ensures { pass_outcome result (machine tape (lent nodes.entry adjoint.new))
        ≡ step (pass (backward (operand root))) (machine tape (lent nodes.entry adjoint.old)) }
{
    run(Pass::Backward(root), tape, nodes, adjoint)
}

// Sets the root's adjoint to one and walks from the last node down to the mark, wherever the root lies. Tells and refuses
// as `backward` does.
pub fn backward_to_mark(
    tape: Tape,
    nodes: Nodes<'_>,
    adjoint: &mut [f64],
    root: Operand,
) -> Result<u32, Refusal>
    ensures { pass_outcome result (machine tape (lent nodes.entry adjoint.new))
        ≡ step (pass (backward_to_mark (operand root))) (machine tape (lent nodes.entry adjoint.old)) }
{
    run(Pass::BackwardToMark(root), tape, nodes, adjoint)
}

// Sets the root's adjoint to one and walks from the mark down to the first node, wherever the root lies. Tells and
// refuses as `backward` does.
pub fn backward_mark_to_start(
    tape: Tape,
    nodes: Nodes<'_>,
    adjoint: &mut [f64],
    root: Operand,
) -> Result<u32, Refusal>
    ensures { pass_outcome result (machine tape (lent nodes.entry adjoint.new))
        ≡ step (pass (backward_mark_to_start (operand root))) (machine tape (lent nodes.entry adjoint.old)) }
{
    run(Pass::BackwardMarkToStart(root), tape, nodes, adjoint)
}

// Walks from the last node down to the mark, with no root. Tells how many edges it visited. Refuses 1, 12 and 7.
pub fn propagate_to_mark(tape: Tape, nodes: Nodes<'_>, adjoint: &mut [f64]) -> Result<u32, Refusal>
    ensures { pass_outcome result (machine tape (lent nodes.entry adjoint.new))
        ≡ step (pass propagate_to_mark) (machine tape (lent nodes.entry adjoint.old)) }
{
    run(Pass::PropagateToMark, tape, nodes, adjoint)
}

// Walks from the mark down to the first node, with no root. Tells how many edges it visited. Refuses 1, 12 and 7.
pub fn propagate_mark_to_start(
    tape: Tape,
    nodes: Nodes<'_>,
    adjoint: &mut [f64],
) -> Result<u32, Refusal>
    ensures { pass_outcome result (machine tape (lent nodes.entry adjoint.new))
        ≡ step (pass propagate_mark_to_start) (machine tape (lent nodes.entry adjoint.old)) }
{
    run(Pass::PropagateMarkToStart, tape, nodes, adjoint)
}

// Runs a pass, whichever of the five it is. Tells and refuses as that one does.
pub fn run(which: Pass, tape: Tape, nodes: Nodes<'_>, adjoint: &mut [f64]) -> Result<u32, Refusal>
    ensures { pass_outcome result (machine tape (lent nodes.entry adjoint.new))
        ≡ step (pass (pass_of which)) (machine tape (lent nodes.entry adjoint.old)) }
{
    let plan = crate::planning::plan_pass(which, tape, nodes, &*adjoint)?;
    Ok(carry_out(plan, nodes, adjoint))
}

// Walks as planned, and tells how many edges it visited.
pub(crate) fn carry_out(plan: Plan, nodes: Nodes<'_>, adjoint: &mut [f64]) -> u32
    requires { Ready plan nodes adjoint.old }
    ensures adjoint_after { adjoint.new ≡ carried_out plan nodes.entry adjoint.old }
    ensures value { result ≡ visits plan.span nodes.entry }
{
    seed(plan.root, adjoint);
    crate::walking::walk(plan.span, nodes, adjoint)
}

// The root's adjoint is set to one, and not added to.
pub(crate) fn seed(root: Option<Handle>, adjoint: &mut [f64])
    requires { Below root adjoint.old }
    ensures { adjoint.new ≡ seeded {N = floats} (operands_of root) adjoint.old }
{
    if let Some(handle) = root {
        adjoint[handle.index] = 1.0;
    }
}
