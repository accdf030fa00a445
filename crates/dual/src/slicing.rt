// A pass in slices: its walk is opened, and then continued by so many nodes at a time until none is left.
ghost use Rattle.std.specs.Prelude.{◌≡◌};
ghost use Rattle.tape.specs.Machine.{machine, lent};
ghost use Rattle.tape.specs.Calls.{open_pass, slice};
ghost use Rattle.tape.specs.Steps.{step};
ghost use Rattle.dual.specs.Outcome.{pass_of, sliced_outcome};

use crate::passes::Pass;
use tape::{Nodes, Refusal, Tape};

// What an opening or a slice did: how many edges it visited, how many nodes are left, and the state after it. With no
// node left the walk is over.
#[derive(Clone, Copy)]
pub struct Sliced {
    pub visited: u32,
    pub left: usize,
    pub tape: Tape,
}

// Sets the adjoint of the pass's root to one, if it has one, and leaves its whole range to slices; a range with no node
// is over at once. Visits no edge. Refuses as the pass in one go does, 7 for the whole range.
pub fn open_pass(
    tape: Tape,
    nodes: Nodes<'_>,
    adjoint: &mut [f64],
    pass: Pass,
) -> Result<Sliced, Refusal>
    ensures { sliced_outcome result tape (lent nodes.entry adjoint.new)
        ≡ step (open_pass (pass_of pass)) (machine tape (lent nodes.entry adjoint.old)) }
{
    let plan = crate::planning::plan_pass(pass, tape, nodes, &*adjoint)?;
    crate::passes::seed(plan.root, adjoint);
    Ok(Sliced {
        visited: 0,
        left: crate::planning::nodes_in(plan.span),
        tape: tape.walking(plan.span),
    })
}

// Walks as many nodes of the open walk as are asked for, from the top, or all that are left. Refuses 1, 12 if no walk is
// open, 13 for none or more than 65,535, and 7 for the nodes that it would walk.
pub fn take_slice(
    tape: Tape,
    nodes: Nodes<'_>,
    adjoint: &mut [f64],
    nodes_asked: usize,
) -> Result<Sliced, Refusal>
    ensures { sliced_outcome result tape (lent nodes.entry adjoint.new)
        ≡ step (slice nodes_asked) (machine tape (lent nodes.entry adjoint.old)) }
{
    let plan = crate::planning::plan_slice(nodes_asked, tape, nodes, &*adjoint)?;
    let visited = crate::passes::carry_out(plan, nodes, adjoint);
    let left = crate::planning::left_after(nodes_asked, crate::planning::left_of(tape));
    Ok(Sliced {
        visited,
        left: crate::planning::nodes_in(left),
        tape: tape.walking(left),
    })
}
