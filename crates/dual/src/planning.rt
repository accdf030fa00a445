// Planning a pass or a slice: every refusal is settled here, with the root and the range, before anything is written.
ghost use Rattle.std.specs.Prelude.{◌≤◌, ◌≡◌, cond, Ok, Err, IfOk, [], ◌∷◌};
ghost use Rattle.std.specs.Result.{result_and};
ghost use Rattle.tape.specs.Machine.{machine, most_nodes, span, lent};
ghost use Rattle.tape.specs.Handles.{operand};
ghost use Rattle.tape.specs.Walk.{sound};
ghost use Rattle.tape.specs.Calls.{pass, slice, plan, past, span_of, nodes_in, left_of, cut_at, slice_plan, slice_leaves};
ghost use Rattle.tape.specs.Admission.{admission, admitted};
ghost use Rattle.tape.specs.Refusals.{refusal_of};
ghost use Rattle.tape.specs.declared.admission.Caller.TheVariants as caller;
ghost use Rattle.tape.specs.declared.errors.Refusal.TheVariants.{UnsoundEdge};
ghost use Rattle.dual.specs.Outcome.{pass_of};
ghost use Rattle.dual.specs.Inner.{EdgeRoom, Within, Ready, found_root, planned, all_sound};

use crate::passes::Pass;
use tape::{Caller, Handle, Lengths, MOST_EDGES, Nodes, Operand, Refusal, Span, Tape};

// What a pass, its opening or a slice is to do: set the adjoint of the root to one, if there is one, and walk this range
// or leave it open. That it fits the lent arrays is `Ready`, and no field of it, since it does not hold them.
#[derive(Clone, Copy)]
pub(crate) struct Plan {
    pub(crate) root: Option<Handle>,
    pub(crate) span: Span,
}

// The root and the range of a pass, once everything was tested that it can be refused for.
pub(crate) fn plan_pass(
    which: Pass,
    tape: Tape,
    nodes: Nodes<'_>,
    adjoint: &[f64],
) -> Result<Plan, Refusal>
    ensures value { result
        ≡ planned (refusal_of (pass (pass_of which)) (machine tape (lent nodes.entry adjoint.now))) (plan (pass_of which) tape) }
    ensures ready { IfOk result (λ p. Ready p nodes.entry adjoint.now) }
{
    let root = let_in(which, tape, Lengths::of(nodes, adjoint), nodes.serial)?;
    let span = range_of(which, tape);
    if_sound(Plan { root, span }, nodes)
}

// The nodes that a slice takes, once everything was tested that it can be refused for.
pub(crate) fn plan_slice(
    nodes_asked: usize,
    tape: Tape,
    nodes: Nodes<'_>,
    adjoint: &[f64],
) -> Result<Plan, Refusal>
    ensures value { result
        ≡ planned (refusal_of (slice nodes_asked) (machine tape (lent nodes.entry adjoint.now))) (slice_plan nodes_asked (left_of tape.walk)) }
    ensures ready { IfOk result (λ p. Ready p nodes.entry adjoint.now) }
{
    tape.admit(Caller::Slice(nodes_asked), Lengths::of(nodes, adjoint))?;
    let span = taken_by(nodes_asked, left_of(tape));
    if_sound(Plan { root: None, span }, nodes)
}

// The nodes that are left of the walk that is open.
pub(crate) fn left_of(tape: Tape) -> Span
    ensures { result ≡ left_of tape.walk }
{
    tape.walk.unwrap_or(Span { from: 0, end: 0 })
}

// Those of them that a slice takes, from the top.
fn taken_by(nodes_asked: usize, left: Span) -> Span
    ensures { result ≡ span (cut_at nodes_asked left) left.end }
{
    Span {
        from: cut_at(nodes_asked, left),
        end: left.end,
    }
}

// Those that it leaves.
pub(crate) fn left_after(nodes_asked: usize, left: Span) -> Span
    ensures { result ≡ slice_leaves nodes_asked left }
{
    Span {
        from: left.from,
        end: cut_at(nodes_asked, left),
    }
}

// The lowest node that a slice takes. It takes all that are left where they are fewer than it asks for.
fn cut_at(nodes_asked: usize, left: Span) -> usize
    ensures { result ≡ cut_at nodes_asked left }
{
    left.end - nodes_asked.min(nodes_in(left))
}

// How many nodes there are from end - 1 down to from.
pub(crate) fn nodes_in(span: Span) -> usize
    ensures { result ≡ nodes_in span }
{
    span.end.saturating_sub(span.from)
}

// The root, if the pass is let in and has one.
fn let_in(which: Pass, tape: Tape, lent: Lengths, serial: &[u64]) -> Result<Option<Handle>, Refusal>
    ensures { result
        ≡ result_and (admitted (admission caller.Passing lent tape)) (found_root tape serial.now (plan (pass_of which) tape).root) }
{
    tape.admit(Caller::Passing, lent)?;
    find_root(which, tape, serial)
}

// The root, if the pass has one: a number is refused, and so is a handle that is not live.
fn find_root(which: Pass, tape: Tape, serial: &[u64]) -> Result<Option<Handle>, Refusal>
    ensures { result ≡ found_root tape serial.now (plan (pass_of which) tape).root }
{
    match which {
        Pass::Backward(root) | Pass::BackwardToMark(root) | Pass::BackwardMarkToStart(root) => {
            find_operand(root, tape, serial)
        }
        Pass::PropagateToMark | Pass::PropagateMarkToStart => Ok(None),
    }
}

fn find_operand(root: Operand, tape: Tape, serial: &[u64]) -> Result<Option<Handle>, Refusal>
    ensures { result ≡ found_root tape serial.now (operand root ∷ []) }
{
    match root {
        Operand::Number(_) => Err(Refusal::Detached),
        Operand::Node(handle) => {
            handle.usable(tape, serial)?;
            Ok(Some(handle))
        }
    }
}

// The range that the pass walks.
fn range_of(which: Pass, tape: Tape) -> Span
    requires { (plan (pass_of which) tape).end ≤ most_nodes }
    ensures { result ≡ span_of (plan (pass_of which) tape) }
{
    match which {
        Pass::Backward(root) => Span {
            from: 0,
            end: past(root),
        },
        Pass::BackwardToMark(_) | Pass::PropagateToMark => Span {
            from: tape.mark,
            end: tape.length,
        },
        Pass::BackwardMarkToStart(_) | Pass::PropagateMarkToStart => Span {
            from: 0,
            end: tape.mark,
        },
    }
}

// The index past a root's.
fn past(root: Operand) -> usize
    requires { past (operand root) ≤ most_nodes }
    ensures { result ≡ past (operand root) }
{
    match root {
        Operand::Number(_) => 0,
        Operand::Node(handle) => handle.index + 1,
    }
}

// The plan, unless a node of its range cannot be walked.
fn if_sound(plan: Plan, nodes: Nodes<'_>) -> Result<Plan, Refusal>
    requires { Within plan.span nodes }
    ensures { result ≡ cond (all_sound nodes.entry plan.span) (Ok plan) (Err UnsoundEdge) }
{
    if is_sound_between(plan.span, nodes) {
        Ok(plan)
    } else {
        Err(Refusal::UnsoundEdge)
    }
}

// Whether every node of the range can be walked. Each is asked, and `&` joins the answers: `all` would branch at each.
fn is_sound_between(span: Span, nodes: Nodes<'_>) -> bool
    requires { Within span nodes }
    ensures { result ≡ all_sound nodes.entry span }
{
    let mut sound = true;
    for i in span.from..span.end {
        sound &= is_sound(i, nodes);
    }
    sound
}

// Whether a node has at most two edges, each to a node below it. Branch-free: the count is unpredictable, and every
// pass asks this of every node.
fn is_sound(i: usize, nodes: Nodes<'_>) -> bool
    requires { EdgeRoom i nodes }
    ensures { result ≡ sound (lent nodes.entry []) i }
{
    let edges = nodes.count[i] as usize;
    let slot = MOST_EDGES * i;
    let first = nodes.child[slot] as usize;
    let second = nodes.child[slot + 1] as usize;
    (edges <= MOST_EDGES) & ((edges < 1) | (first < i)) & ((edges < 2) | (second < i))
}
