// One session: a tape is filled, rewound and stopped, and what is answered on the way is written down, the leaves that
// fill it in one line.
use crate::filling;
use crate::lent::Lent;
use crate::report::Report;
use expr::NEGATE;
use std::io;
use tape::{Handle, Operand, Tape};

pub(crate) fn run(report: &Report<'_, impl Print>, lent: &mut Lent<'_>) -> io::Result<()> {
    lent.tape = report.moved("start", Tape::new(), Tape::start_recording)?;
    let filled = filling::fill(lent);
    // Where no leaf was recorded, a handle that the calls refuse.
    let first = Operand::Node(filled.first.unwrap_or(Handle::NEVER_LIVE));
    report.filled(filled, lent.tape)?;
    probe(report, lent, first)?;
    lent.tape = report.moved("rewind to init", lent.tape, Tape::rewind_to_init)?;
    probe(report, lent, first)?;
    lent.tape = report.moved("stop", lent.tape, Tape::stop_recording)?;
    probe(report, lent, first)
}

// One more leaf, and then the first leaf's handle as an operand. On the full tape it is live, so that only the room is
// missing: without that, a lookup that finds nothing would pass.
fn probe(report: &Report<'_, impl Print>, lent: &mut Lent<'_>, first: Operand) -> io::Result<()> {
    let answer = lent.leaf(2.5);
    report.recorded("leaf", answer, lent.tape)?;
    let answer = lent.record(NEGATE, first, first);
    report.recorded("first leaf negated", answer, lent.tape)
}
