// The lines of a session file, read and run in turn.
ghost use Rattle.std.specs.Prelude.{◌≤◌, ◌<◌, ◌≡◌, length, IfErr};
ghost use Rattle.tape.specs.Machine.{SameArrays, machine, lent_mut};
ghost use Rattle.tape.specs.Answers.{outcome};
ghost use Rattle.session.specs.Session.{lines, run_read, run_lines, most_session, least_refusal};
ghost use Rattle.session.specs.Inner.{reading, came_to, kept, told};

use crate::reading::read_line;
use crate::running::run_line;
use tape::{NodesMut, Refusal, Tape};

// Why a session was refused, and at which line; at line 0 where no line is at fault, since the answer's number adds it as
// it stands. That it is small stands in the promises, whose definitions speak of every stop.
#[derive(Clone, Copy)]
pub(crate) struct Stop {
    pub refusal: Refusal,
    pub line: u32,
}

// The state after the last line, or where the first refusal stopped them.
pub(crate) fn run_lines(
    session: &[u8],
    tape: Tape,
    nodes: &mut NodesMut<'_>,
    adjoint: &mut [f64],
) -> Result<Tape, Stop>
    requires { length session.now ≤ most_session }
    ensures whole { came_to result (lent_mut nodes.new adjoint.new)
        ≡ run_lines reading 1 (lines session.now) (machine tape (lent_mut nodes.old adjoint.old)) }
    ensures small { IfErr result (λ s. s.line < least_refusal) }
    ensures same { SameArrays nodes.old nodes.new }
{
    let mut state = tape;
    for (line, text) in (1..).zip(session.split_inclusive(|byte| *byte == b'\n')) {
        read_and_run(text, &mut state, nodes, adjoint).map_err(|refusal| Stop { refusal, line })?;
    }
    Ok(state)
}

// A line is read whole before it runs; what is no line is refused 9.
fn read_and_run(
    text: &[u8],
    tape: &mut Tape,
    nodes: &mut NodesMut<'_>,
    adjoint: &mut [f64],
) -> Result<(), Refusal>
    ensures step { told (outcome (kept result tape.new) tape.old (lent_mut nodes.new adjoint.new))
        ≡ told (run_read (reading text.now) (machine tape.old (lent_mut nodes.old adjoint.old))) }
    ensures same { SameArrays nodes.old nodes.new }
{
    let line = read_line(text).ok_or(Refusal::Malformed)?;
    run_line(line, tape, nodes, adjoint)
}
