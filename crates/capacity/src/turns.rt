// Calls while a walk is open, on a tape of two nodes: a slice, an adjoint read, the listing and start are answered, and
// every other is refused 12. Then open walks that do not fit the state, refused 1.
use crate::refusals::{recording, writing};
use crate::report::Report;
use crate::small::{Arrays, two_nodes, with_next};
use dual::Pass;
use expr::ADD;
use std::io;
use tape::{Handle, Operand, Span, Tape};

// The second of the two nodes, by the serial that all entries of the arrays have here.
const LAST: Operand = Operand::Node(Handle {
    index: 1,
    serial: 7,
});

pub(crate) fn run(report: &Report<'_, impl Print>) -> io::Result<()> {
    let open = left_open(0, 2, true);
    moving(report, open)?;
    recording(report, "walk open, recording", open, ADD)?;
    let stopped = left_open(0, 2, false);
    recording(report, "walk open, recording while stopped", stopped, ADD)?;
    out_of_turn(report, open)?;
    slicing(report, "walk open, slice", open)?;
    reading(report, "walk open, adjoint", open)?;
    writing(report, "walk open, listing", open, 122)?;
    let started = report.moved("walk open, start", open, Tape::start_recording)?;
    slicing(report, "walk dropped, slice", started)?;
    opening(report, "open two nodes", Pass::PropagateToMark)?;
    opening(report, "open no node", Pass::BackwardMarkToStart(LAST))?;
    fitting(report)
}

// A walk that is open has a node left, and none past the length. The names stand whole, since without a heap none is put
// together.
fn fitting(report: &Report<'_, impl Print>) -> io::Result<()> {
    let one = left_open(1, 2, true);
    report.moved("one node left, start", one, Tape::start_recording)?;
    report.moved("one node left, stop", one, Tape::stop_recording)?;
    slicing(report, "one node left, slice", one)?;
    reading(report, "one node left, adjoint", one)?;
    let none = left_open(1, 1, true);
    report.moved("no node left, start", none, Tape::start_recording)?;
    report.moved("no node left, stop", none, Tape::stop_recording)?;
    slicing(report, "no node left, slice", none)?;
    reading(report, "no node left, adjoint", none)?;
    let past = left_open(1, 3, true);
    report.moved("past the length, start", past, Tape::start_recording)?;
    report.moved("past the length, stop", past, Tape::stop_recording)?;
    slicing(report, "past the length, slice", past)?;
    reading(report, "past the length, adjoint", past)
}

// Two nodes with these left to be walked, fit or not. Written out, since `Tape::walking` closes a walk that has no node
// left.
fn left_open(from: usize, end: usize, active: bool) -> Tape {
    Tape {
        walk: Some(Span { from, end }),
        ..with_next(3, active)
    }
}

fn moving(report: &Report<'_, impl Print>, open: Tape) -> io::Result<()> {
    let tape = report.moved("walk open, stop", open, Tape::stop_recording)?;
    let tape = report.moved("walk open, set mark", tape, Tape::set_mark)?;
    let tape = report.moved("walk open, reset mark", tape, Tape::reset_mark)?;
    let tape = report.moved("walk open, rewind to mark", tape, Tape::rewind_to_mark)?;
    report.moved("walk open, rewind to init", tape, Tape::rewind_to_init)?;
    Ok(())
}

// The calls that are lent no more than the adjoints to write.
fn out_of_turn(report: &Report<'_, impl Print>, tape: Tape) -> io::Result<()> {
    let mut arrays = Arrays::FILLED;
    let mut lent = arrays.lend(tape);
    for (call, pass) in [
        ("walk open, backward", Pass::Backward(LAST)),
        ("walk open, backward to mark", Pass::BackwardToMark(LAST)),
        (
            "walk open, backward mark to start",
            Pass::BackwardMarkToStart(LAST),
        ),
        ("walk open, propagate to mark", Pass::PropagateToMark),
        (
            "walk open, propagate mark to start",
            Pass::PropagateMarkToStart,
        ),
    ] {
        report.passed(call, lent.pass(pass))?;
    }
    let answer = lent.open(Pass::PropagateToMark);
    report.sliced("walk open, another opening", answer, lent.tape)?;
    report.cleared("walk open, clear", lent.clear())?;
    report.read("walk open, value", lent.value(LAST))?;
    report.liveness("walk open, is live", lent.is_live(LAST))?;
    report.kept(
        "walk open, from backward on",
        arrays.has_adjoints_of(&Arrays::FILLED),
    )
}

// A slice of one node.
fn slicing(report: &Report<'_, impl Print>, call: &str, tape: Tape) -> io::Result<()> {
    let mut arrays = Arrays::FILLED;
    let mut lent = arrays.lend(tape);
    let answer = lent.slice(1);
    let after = lent.tape;
    report.sliced(call, answer, after)?;
    report.kept(
        call,
        (after == tape) & arrays.has_adjoints_of(&Arrays::FILLED),
    )
}

// The adjoint of the second node.
fn reading(report: &Report<'_, impl Print>, call: &str, tape: Tape) -> io::Result<()> {
    let mut arrays = Arrays::FILLED;
    report.read(call, arrays.lend(tape).adjoint_of(LAST))
}

// A pass of the two nodes, and the adjoint of the second then.
fn opening(report: &Report<'_, impl Print>, call: &str, pass: Pass) -> io::Result<()> {
    let mut arrays = Arrays::FILLED;
    let mut lent = arrays.lend(two_nodes());
    let answer = lent.open(pass);
    report.sliced(call, answer, lent.tape)?;
    report.read("adjoint of the last node", lent.adjoint_of(LAST))
}
