// A call of a sequence, carried out by the port.
use crate::calls::Task;
use crate::kinds::Kind;
use crate::machine::Machine;
use crate::said::Said;
use crate::slices::pass_in_slices;
use crate::subject::Way;
use dual::Pass;
use expr::Recorded;
use listing::bits_of;
use tape::{Handle, Refusal, Tape};

// What the port answered, the node that it recorded, and how many slices were taken.
#[derive(Clone, Copy)]
pub struct Heard {
    pub said: Said,
    pub node: Option<Handle>,
    pub slices: u64,
}

impl Heard {
    fn new(said: Said) -> Heard {
        Heard {
            said,
            node: None,
            slices: 0,
        }
    }
}

// A pass is carried out in a way, cut by the number of its line. The kinds come out of a list, so that each is told
// apart here and in what is called here.
pub(crate) fn carry_out(machine: &mut Machine<'_>, task: Task, way: Way, line: u64) -> Heard {
    if let Some(op) = task.kind.operation() {
        return after_recording(machine.record(op, task.left, task.right, task.given));
    }
    match task.pass() {
        Some(pass) if way.is_cut() => pass_in_slices(machine, pass, line, way),
        Some(pass) => Heard::new(visited(machine, pass).unwrap_or_else(Said::from)),
        None => Heard::new(answer(machine, task).unwrap_or_else(Said::from)),
    }
}

fn after_recording(recorded: Result<Recorded, Refusal>) -> Heard {
    match recorded {
        Ok(Recorded { value, handle, .. }) => {
            let bits = bits_of(value);
            let said = match handle {
                Some(_) => Said::Float(bits),
                None => Said::Detached(bits),
            };
            Heard {
                node: handle,
                ..Heard::new(said)
            }
        }
        Err(refusal) => Heard::new(Said::Refused(refusal)),
    }
}

fn visited(machine: &mut Machine<'_>, pass: Pass) -> Result<Said, Refusal> {
    let edges = machine.in_one_go(pass)?;
    Ok(Said::Visited(u64::from(edges)))
}

// A call that records nothing and walks nothing.
fn answer(machine: &mut Machine<'_>, task: Task) -> Result<Said, Refusal> {
    match task.kind {
        Kind::ResetAdjoints => machine.reset_adjoints()?,
        Kind::Value => return Ok(Said::Float(bits_of(machine.value(task.left)?))),
        Kind::Adjoint => return Ok(Said::Float(bits_of(machine.adjoint(task.left)?))),
        kind => machine.tape = moved(machine.tape, kind)?,
    }
    Ok(Said::Nothing)
}

// At the end of a sequence nothing is called.
fn moved(tape: Tape, kind: Kind) -> Result<Tape, Refusal> {
    match kind {
        Kind::StartRecording => tape.start_recording(),
        Kind::StopRecording => tape.stop_recording(),
        Kind::SetMark => tape.set_mark(),
        Kind::ResetMark => tape.reset_mark(),
        Kind::RewindToMark => tape.rewind_to_mark(),
        Kind::RewindToInit => tape.rewind_to_init(),
        _ => Ok(tape),
    }
}
