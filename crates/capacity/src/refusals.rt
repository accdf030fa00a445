// Refusals 2, 6, 7 and 8, each met by a call on a tape of two nodes, and whether the call left what it is lent as it
// was.
use crate::report::Report;
use crate::small::{Arrays, N, SLOTS, two_nodes, with_next};
use dual::Pass;
use expr::{ADD, SQRT};
use std::io;
use tape::{Operand, Tape};

// The first number that there is no operation for.
const UNKNOWN: u8 = 11;

pub(crate) fn run(report: &Report<'_, impl Print>) -> io::Result<()> {
    recording(report, "operation 10", two_nodes(), SQRT)?;
    recording(report, "operation 11", two_nodes(), UNKNOWN)?;
    recording(report, "operation 255", two_nodes(), u8::MAX)?;
    let last_but_one = with_next(u64::MAX - 1, true);
    recording(report, "last serial but one", last_but_one, ADD)?;
    let last = with_next(u64::MAX, true);
    recording(report, "last serial", last, ADD)?;
    let stopped = with_next(u64::MAX, false);
    recording(report, "last serial, stopped", stopped, ADD)?;
    walking(report, "two edges, both down", 2, 0)?;
    walking(report, "three edges", 3, 0)?;
    walking(report, "an edge to its own node", 2, 1)?;
    walking(report, "an edge up", 2, 2)?;
    writing(report, "listing", two_nodes(), 122)?;
    writing(report, "listing, a byte too long", two_nodes(), 121)
}

// Records an operation on plain numbers.
pub(crate) fn recording(
    report: &Report<'_, impl Print>,
    call: &str,
    tape: Tape,
    op: u8,
) -> io::Result<()> {
    let left = Operand::Number(2.5);
    let right = Operand::Number(1.0);
    recording_of(report, call, tape, Arrays::FILLED, op, left, right)
}

// Records an operation on such arrays, but with counts and children that no recording here writes.
pub(crate) fn recording_of(
    report: &Report<'_, impl Print>,
    call: &str,
    tape: Tape,
    arrays: Arrays,
    op: u8,
    left: Operand,
    right: Operand,
) -> io::Result<()> {
    let before = Arrays {
        count: [1; N],
        child: [9; SLOTS],
        ..arrays
    };
    let mut arrays = before;
    let mut lent = arrays.lend(tape);
    let answer = lent.record(op, left, right);
    let after = lent.tape;
    report.recorded(call, answer, after)?;
    report.kept(call, (after == tape) & arrays.is_same(&before))
}

// Walks the whole tape, whose second node has so many edges, the last of them to `to`. A walk is lent the adjoints
// alone to write.
fn walking(report: &Report<'_, impl Print>, call: &str, edges: u8, to: u16) -> io::Result<()> {
    let mut arrays = Arrays {
        count: [0, edges, 0],
        child: [0, 0, 0, to, 0, 0],
        ..Arrays::FILLED
    };
    let answer = arrays.lend(two_nodes()).pass(Pass::PropagateToMark);
    report.passed(call, answer)?;
    report.kept(call, arrays.has_adjoints_of(&Arrays::FILLED))
}

// Writes the listing of the two nodes into the first `room` of 128 bytes. It is lent nothing else to write.
pub(crate) fn writing(
    report: &Report<'_, impl Print>,
    call: &str,
    tape: Tape,
    room: usize,
) -> io::Result<()> {
    let mut arrays = Arrays::FILLED;
    let mut out = [b'.'; 128];
    let Some(front) = out.get_mut(..room) else {
        return Ok(());
    };
    let answer = arrays.lend(tape).list(front);
    report.listed(call, answer)?;
    report.kept(call, out.iter().all(|byte| *byte == b'.'))
}
