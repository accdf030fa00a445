// A pass over a full tape in one go, and then cut into slices of 1, 1,000 and 65,535 nodes: what the slices come to,
// and whether they leave the same adjoints.
use crate::filling::TOO_MANY;
use crate::lent::Lent;
use crate::powers;
use crate::powers::Powers;
use crate::report::Report;
use crate::small::is_same;
use dual::{Pass, Sliced};
use std::io;
use tape::{MOST_NODES, Operand, Span, Tape};

// What the slices of a pass came to.
#[derive(Clone, Copy)]
pub struct Cut {
    // How many of them took their nodes from the top, as many as they were to or all that were left.
    pub slices: u64,
    pub edges: u64,
    pub left: usize,
}

pub(crate) fn run(report: &Report<'_, impl Print>, lent: &mut Lent<'_>) -> io::Result<()> {
    // The largest capacity alone: a slice can be as long as its tape, and none longer.
    if lent.capacity() != MOST_NODES {
        return Ok(());
    }
    lent.tape = report.moved("start", Tape::new(), Tape::start_recording)?;
    match powers::fill(lent) {
        Ok(powers) => pass_over(report, lent, powers),
        Err(refusal) => report.refused("powers", refusal),
    }
}

fn pass_over(
    report: &Report<'_, impl Print>,
    lent: &mut Lent<'_>,
    powers: Powers,
) -> io::Result<()> {
    report.last_power(powers, lent.tape)?;
    let pass = Pass::Backward(Operand::Node(powers.last));
    report.passed("backward", lent.pass(pass))?;
    let first = Operand::Node(powers.first);
    report.read("adjoint of the first power", lent.adjoint_of(first))?;
    let mut whole = [0.0; MOST_NODES];
    copy(lent.adjoint, &mut whole);
    open(report, lent, pass)?;
    unfit_slices(report, lent)?;
    to_the_end(report, lent, "slices of 1", 1, &whole)?;
    open(report, lent, pass)?;
    to_the_end(report, lent, "slices of 1000", 1_000, &whole)?;
    open(report, lent, pass)?;
    to_the_end(report, lent, "slices of 65535", MOST_NODES, &whole)?;
    unfit_slices(report, lent)
}

// Clears the adjoints and opens the pass.
fn open(report: &Report<'_, impl Print>, lent: &mut Lent<'_>, pass: Pass) -> io::Result<()> {
    report.cleared("clear", lent.clear())?;
    let answer = lent.open(pass);
    report.sliced("open backward", answer, lent.tape)
}

// Refused 13 while a walk is open, and 12, which comes first, while none is.
fn unfit_slices(report: &Report<'_, impl Print>, lent: &mut Lent<'_>) -> io::Result<()> {
    let tape = lent.tape;
    let mut before = [0.0; MOST_NODES];
    copy(lent.adjoint, &mut before);
    let none = lent.slice(0);
    report.sliced("slice of 0", none, lent.tape)?;
    let many = lent.slice(TOO_MANY);
    report.sliced("slice of 65536", many, lent.tape)?;
    let same = (lent.tape == tape) & is_same(lent.adjoint, &before);
    report.kept("slices of 0 and 65536", same)
}

// Slices of so many nodes until none is left, and then the adjoints beside those of the pass in one go.
fn to_the_end(
    report: &Report<'_, impl Print>,
    lent: &mut Lent<'_>,
    call: &str,
    nodes: usize,
    whole: &[f64],
) -> io::Result<()> {
    let cut = slice_all(lent, nodes);
    report.cut(call, cut, lent.tape)?;
    report.compared(call, is_same(lent.adjoint, whole))
}

fn slice_all(lent: &mut Lent<'_>, nodes: usize) -> Cut {
    let mut cut = Cut {
        slices: 0,
        edges: 0,
        left: MOST_NODES,
    };
    for _ in 0..MOST_NODES {
        if cut.left == 0 {
            break;
        }
        let before = lent.tape;
        if let Ok(sliced) = lent.slice(nodes) {
            cut = cut.with(nodes, before, sliced);
        }
    }
    cut
}

impl Cut {
    fn with(self, nodes: usize, before: Tape, sliced: Sliced) -> Cut {
        let end = self.left.saturating_sub(nodes);
        // By the promise of `walking` itself.
        let expected = before.walking(Span { from: 0, end });
        let in_step = (sliced.left == end) & (sliced.tape == expected);
        Cut {
            slices: self.slices.saturating_add(u64::from(in_step)),
            edges: self.edges.saturating_add(u64::from(sliced.visited)),
            left: sliced.left,
        }
    }
}

fn copy(from: &[f64], to: &mut [f64; MOST_NODES]) {
    if from.len() == MOST_NODES {
        to.copy_from_slice(from);
    }
}
