// One line of a session file, run: the call that it names is made on the tape.
ghost use Rattle.std.specs.Prelude.{◌≡◌, List, Float};
ghost use Rattle.tape.specs.Numbers.{floats};
ghost use Rattle.tape.specs.Machine.{Arrays, SameArrays, machine, lent_mut};
ghost use Rattle.tape.specs.Handles.{operand};
ghost use Rattle.tape.specs.Answers.{outcome};
ghost use Rattle.tape.specs.Calls.{operate, move, clear, pass};
ghost use Rattle.tape.specs.Steps.{step};
ghost use Rattle.expr.specs.Operators.{nothing};
ghost use Rattle.dual.specs.Outcome.{pass_of};
ghost use Rattle.session.specs.Session.{call, run_line};
ghost use Rattle.session.specs.Inner.{line_of, source_stands, line_stands, node_with, operand_with, number_with, move_of, named, kept, told};

use crate::reading::{Line, Source};
use dual::Pass;
use expr::{LEAF, NEGATE, SQRT, Supplied};
use listing::float_of;
use tape::{Handle, NodesMut, Operand, Refusal, Tape};

// The call that a line names, on its operands.
#[derive(Clone, Copy)]
pub(crate) enum Call {
    Record(u8, Operand, Operand),
    Move(Move),
    Clear,
    Pass(Pass),
}

// The moves that a line can name.
#[derive(Clone, Copy)]
pub(crate) enum Move {
    SetMark,
    ResetMark,
    RewindToMark,
    RewindToInit,
}

// Runs a line on the state, which stays where it is refused. An index not below the length is refused 3, before any handle
// is made.
pub(crate) fn run_line(
    line: Line,
    tape: &mut Tape,
    nodes: &mut NodesMut<'_>,
    adjoint: &mut [f64],
) -> Result<(), Refusal>
    ensures step { told (outcome (kept result tape.new) tape.old (lent_mut nodes.new adjoint.new))
        ≡ told (run_line (line_of line) (machine tape.old (lent_mut nodes.old adjoint.old))) }
    ensures same { SameArrays nodes.old nodes.new }
{
    if !stands(line, tape.length) {
        return Err(Refusal::Stale);
    }
    make(call_of(line, &*nodes), tape, nodes, adjoint)
}

// Whether each index that a line names is below the length.
fn stands(line: Line, length: usize) -> bool
    ensures { result ≡ line_stands length line }
{
    match line {
        Line::Op(_, left, right) => is_below(left, length) && is_below(right, length),
        Line::Op7(left) | Line::Op10(left) => is_below(left, length),
        Line::PassBack(root) | Line::PassTomark(root) | Line::PassTostart(root) => root < length,
        _ => true,
    }
}

fn is_below(source: Source, length: usize) -> bool
    ensures { result ≡ source_stands length source }
{
    match source {
        Source::Node(index) => index < length,
        Source::Number(_) => true,
    }
}

// A line comes out of a file, so that each kind is told apart here.
fn call_of(line: Line, nodes: &NodesMut<'_>) -> Call
    ensures { (t : Tape) (a : List Float) → named result ≡ call (machine t (lent_mut nodes.now a)) (line_of line) }
{
    let serial: &[u64] = &*nodes.serial;
    match line {
        Line::Leaf(bits) => Call::Record(LEAF, number(bits), UNUSED),
        Line::Op(op, left, right) => Call::Record(
            op,
            operand(left, serial),
            operand(right, serial),
        ),
        Line::Op7(left) => Call::Record(NEGATE, operand(left, serial), UNUSED),
        Line::Op10(left) => Call::Record(SQRT, operand(left, serial), UNUSED),
        Line::MarkSet => Call::Move(Move::SetMark),
        Line::MarkReset => Call::Move(Move::ResetMark),
        Line::RewindMark => Call::Move(Move::RewindToMark),
        Line::RewindInit => Call::Move(Move::RewindToInit),
        Line::ClearAdj => Call::Clear,
        Line::PassBack(root) => Call::Pass(Pass::Backward(node_at(root, serial))),
        Line::PassTomark(root) => Call::Pass(Pass::BackwardToMark(node_at(root, serial))),
        Line::PassTostart(root) => Call::Pass(Pass::BackwardMarkToStart(node_at(root, serial))),
        Line::PassRest => Call::Pass(Pass::PropagateMarkToStart),
    }
}

// ---- operands

// Stands where an operation uses no right operand.
const UNUSED: Operand = Operand::Number(0.0);

fn operand(source: Source, serial: &[u64]) -> Operand
    ensures { result ≡ operand_with serial.now source }
{
    match source {
        Source::Node(index) => node_at(index, serial),
        Source::Number(bits) => number(bits),
    }
}

// The handle of an index with the serial that stands there. It asks nothing of the index: past the serials there is 0,
// which no node has.
fn node_at(index: usize, serial: &[u64]) -> Operand
    ensures { result ≡ node_with serial.now index }
{
    let serial = serial.get(index).copied().unwrap_or(0);
    Operand::Node(Handle { index, serial })
}

fn number(bits: u64) -> Operand
    ensures { result ≡ number_with bits }
{
    Operand::Number(float_of(bits))
}

// ---- the calls, of whose answers nothing but the state is kept

// One place for each kind: from a single one the compiler puts `record` and `run` there. The state goes by reference,
// since each answer that it stood in would be copied, and what a function keeps is cleared at each of its calls.
fn make(
    call: Call,
    tape: &mut Tape,
    nodes: &mut NodesMut<'_>,
    adjoint: &mut [f64],
) -> Result<(), Refusal>
    ensures step { told (outcome (kept result tape.new) tape.old (lent_mut nodes.new adjoint.new))
        ≡ told (step (named call) (machine tape.old (lent_mut nodes.old adjoint.old))) }
    ensures same { SameArrays nodes.old nodes.new }
{
    match call {
        Call::Record(op, left, right) => record(op, left, right, tape, nodes, adjoint),
        Call::Move(which) => make_move(which, tape),
        Call::Clear => clear(&*tape, &*nodes, adjoint),
        Call::Pass(which) => pass(which, &*tape, &*nodes, adjoint),
    }
}

fn record(
    op: u8,
    left: Operand,
    right: Operand,
    tape: &mut Tape,
    nodes: &mut NodesMut<'_>,
    adjoint: &mut [f64],
) -> Result<(), Refusal>
    ensures step { told (outcome (kept result tape.new) tape.old (lent_mut nodes.new adjoint.new))
        ≡ told (step (operate op (operand left) (operand right) nothing) (machine tape.old (lent_mut nodes.old adjoint.old))) }
    ensures same { SameArrays nodes.old nodes.new }
{
    let none = Supplied::NONE;
    let made = expr::recording::record(*tape, nodes, adjoint, op, left, right, none)?;
    *tape = made.tape;
    Ok(())
}

fn make_move(which: Move, tape: &mut Tape) -> Result<(), Refusal>
    ensures { (A : Arrays floats) → told (outcome (kept result tape.new) tape.old A) ≡ told (step (move (move_of which)) (machine tape.old A)) }
{
    *tape = match which {
        Move::SetMark => tape.set_mark()?,
        Move::ResetMark => tape.reset_mark()?,
        Move::RewindToMark => tape.rewind_to_mark()?,
        Move::RewindToInit => tape.rewind_to_init()?,
    };
    Ok(())
}

fn clear(tape: &Tape, nodes: &NodesMut<'_>, adjoint: &mut [f64]) -> Result<(), Refusal>
    ensures { told (outcome (kept result tape.now) tape.now (lent_mut nodes.now adjoint.new))
        ≡ told (step clear (machine tape.now (lent_mut nodes.now adjoint.old))) }
{
    dual::clearing::reset_adjoints(*tape, nodes.shared(), adjoint)
}

fn pass(which: Pass, tape: &Tape, nodes: &NodesMut<'_>, adjoint: &mut [f64]) -> Result<(), Refusal>
    ensures { told (outcome (kept result tape.now) tape.now (lent_mut nodes.now adjoint.new))
        ≡ told (step (pass (pass_of which)) (machine tape.now (lent_mut nodes.now adjoint.old))) }
{
    dual::passes::run(which, *tape, nodes.shared(), adjoint)?;
    Ok(())
}
