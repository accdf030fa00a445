// Handles on a tape of two nodes, live, stale or never issued: as operands, as roots, and read.
use crate::refusals::recording_of;
use crate::report::Report;
use crate::small::{Arrays, N, with_next};
use dual::Pass;
use expr::ADD;
use std::io;
use tape::{Handle, Operand, Tape};

// The serials are as three leaves, a rewind by two, two leaves and a rewind by one leave them: 2 and 3 are stored no
// more, and 5 past the length.
const ARRAYS: Arrays = Arrays {
    serial: [1, 4, 5],
    ..Arrays::FILLED
};

const NEXT: u64 = 6;

// Not above the serial of the second node, which no calls leave: the node is live, since that is asked first.
const LOW_NEXT: u64 = 3;

const LIVE: Operand = Operand::Node(Handle {
    index: 1,
    serial: 4,
});

const STALE: Operand = Operand::Node(Handle {
    index: 1,
    serial: 2,
});

const PAST_LENGTH: Operand = Operand::Node(Handle {
    index: 2,
    serial: 5,
});

const OF_NEXT: Operand = Operand::Node(Handle {
    index: 1,
    serial: NEXT,
});

const OF_LARGEST: Operand = Operand::Node(Handle {
    index: N,
    serial: u64::MAX,
});

const OF_NOUGHT: Operand = Operand::Node(Handle::NEVER_LIVE);

pub(crate) fn run(report: &Report<'_, impl Print>) -> io::Result<()> {
    let tape = with_next(NEXT, true);
    operands(report, tape)?;
    roots(report, tape)?;
    reads(report, tape)?;
    issued(report, tape)?;
    never_issued(report, tape)?;
    low_next(report)
}

// The first that is not live decides.
fn operands(report: &Report<'_, impl Print>, tape: Tape) -> io::Result<()> {
    adding(report, "live + live", tape, LIVE, LIVE)?;
    adding(report, "stale + live", tape, STALE, LIVE)?;
    adding(report, "live + past the length", tape, LIVE, PAST_LENGTH)?;
    adding(report, "serial 0 + live", tape, OF_NOUGHT, LIVE)?;
    adding(report, "live + next serial", tape, LIVE, OF_NEXT)?;
    adding(report, "stale + largest serial", tape, STALE, OF_LARGEST)?;
    adding(report, "largest serial + stale", tape, OF_LARGEST, STALE)
}

fn roots(report: &Report<'_, impl Print>, tape: Tape) -> io::Result<()> {
    for (call, pass) in [
        ("backward, live root", Pass::Backward(LIVE)),
        ("backward, stale root", Pass::Backward(STALE)),
        ("backward, root of the next serial", Pass::Backward(OF_NEXT)),
        (
            "backward to mark, root past the length",
            Pass::BackwardToMark(PAST_LENGTH),
        ),
        (
            "backward mark to start, root of serial 0",
            Pass::BackwardMarkToStart(OF_NOUGHT),
        ),
    ] {
        passing(report, call, tape, pass)?;
    }
    for (call, root) in [
        ("open backward, live root", LIVE),
        ("open backward, stale root", STALE),
        ("open backward, root of the largest serial", OF_LARGEST),
    ] {
        opening(report, call, tape, Pass::Backward(root))?;
    }
    Ok(())
}

fn reads(report: &Report<'_, impl Print>, tape: Tape) -> io::Result<()> {
    let mut arrays = ARRAYS;
    let lent = arrays.lend(tape);
    report.read("value, live", lent.value(LIVE))?;
    report.read("adjoint, live", lent.adjoint_of(LIVE))?;
    report.read("value, stale", lent.value(STALE))?;
    report.read("adjoint, stale", lent.adjoint_of(STALE))?;
    report.read("value, next serial", lent.value(OF_NEXT))?;
    report.read("adjoint, next serial", lent.adjoint_of(OF_NEXT))?;
    report.liveness("is live, 2.5", lent.is_live(Operand::Number(2.5)))
}

fn issued(report: &Report<'_, impl Print>, tape: Tape) -> io::Result<()> {
    for (index, serial) in [
        (0, 1),
        (1, 4),
        (1, 1),
        (1, 2),
        (2, 5),
        (N, 5),
        (usize::MAX, 4),
    ] {
        looking_up(report, tape, Handle { index, serial })?;
    }
    Ok(())
}

// At a node, past the length, and past the arrays.
fn never_issued(report: &Report<'_, impl Print>, tape: Tape) -> io::Result<()> {
    for serial in [0, NEXT, u64::MAX] {
        for index in [0, 2, N] {
            looking_up(report, tape, Handle { index, serial })?;
        }
    }
    Ok(())
}

fn low_next(report: &Report<'_, impl Print>) -> io::Result<()> {
    let tape = with_next(LOW_NEXT, true);
    let pass = Pass::Backward(LIVE);
    adding(report, "next serial 3, live + live", tape, LIVE, LIVE)?;
    passing(report, "next serial 3, backward, live root", tape, pass)?;
    for index in [1, 0] {
        looking_up(report, tape, Handle { index, serial: 4 })?;
    }
    Ok(())
}

fn adding(
    report: &Report<'_, impl Print>,
    call: &str,
    tape: Tape,
    left: Operand,
    right: Operand,
) -> io::Result<()> {
    recording_of(report, call, tape, ARRAYS, ADD, left, right)
}

// A pass is lent the adjoints alone to write.
fn passing(report: &Report<'_, impl Print>, call: &str, tape: Tape, pass: Pass) -> io::Result<()> {
    let mut arrays = ARRAYS;
    let answer = arrays.lend(tape).pass(pass);
    report.passed(call, answer)?;
    report.kept(call, arrays.has_adjoints_of(&ARRAYS))
}

fn opening(report: &Report<'_, impl Print>, call: &str, tape: Tape, pass: Pass) -> io::Result<()> {
    let mut arrays = ARRAYS;
    let mut lent = arrays.lend(tape);
    let answer = lent.open(pass);
    let after = lent.tape;
    report.sliced(call, answer, after)?;
    report.kept(call, (after == tape) & arrays.has_adjoints_of(&ARRAYS))
}

fn looking_up(report: &Report<'_, impl Print>, tape: Tape, handle: Handle) -> io::Result<()> {
    let mut arrays = ARRAYS;
    let answer = arrays.lend(tape).is_live(Operand::Node(handle));
    report.looked_up(handle, tape.next, answer)
}
