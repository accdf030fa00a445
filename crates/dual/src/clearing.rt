// Clearing: +0.0 in each live adjoint.
ghost use Rattle.std.specs.Prelude.{◌≡◌};
ghost use Rattle.tape.specs.Machine.{machine, lent};
ghost use Rattle.tape.specs.Calls.{clear};
ghost use Rattle.tape.specs.Steps.{step};
ghost use Rattle.dual.specs.Outcome.{cleared_outcome};

use tape::{Caller, Lengths, Nodes, Refusal, Tape};

// Sets each live adjoint to +0.0; those past the length stay. Refuses 1, and 12 while a walk is open.
pub fn reset_adjoints(tape: Tape, nodes: Nodes<'_>, adjoint: &mut [f64]) -> Result<(), Refusal>
    ensures { cleared_outcome result (machine tape (lent nodes.entry adjoint.new))
        ≡ step clear (machine tape (lent nodes.entry adjoint.old)) }
{
    tape.admit(Caller::Clearing, Lengths::of(nodes, &*adjoint))?;
    adjoint[..tape.length].fill(0.0);
    Ok(())
}
