// Runs tapes of capacity 0, 1, 65,535 and 65,536 on real arrays and writes down what the calls answer: the row of
// document 01's edges that is not in the proved table. Then a pass in slices on a full tape, the refusals that no other
// program meets, and handles that are live, stale or were never issued.
#![tactic(auto)]

mod filling;
mod handles;
mod lent;
mod powers;
mod refusals;
mod report;
mod session;
mod slices;
mod small;
mod turns;

ghost use Rattle.std.specs.Prelude.{◌≤◌};

use filling::TOO_MANY;
use lent::Lent;
use report::Report;
use std::io;
use tape::{MOST_EDGES, MOST_NODES, NodesMut, Tape};

const SLOTS: usize = MOST_EDGES * TOO_MANY;

fn main(rt: HostRuntime) -> io::Result<()> {
    at(&rt, 0)?;
    at(&rt, 1)?;
    at(&rt, MOST_NODES)?;
    at(&rt, TOO_MANY)?;
    let report = Report {
        rt: &rt,
        capacity: small::N,
    };
    refusals::run(&report)?;
    handles::run(&report)?;
    turns::run(&report)
}

// What is run on a tape of capacity n: one session after another on the same arrays, which may hold anything.
fn at(rt: &impl Print, n: usize) -> io::Result<()>
    requires { n ≤ TOO_MANY }
{
    let mut value = [0.0; TOO_MANY];
    let mut adjoint = [0.0; TOO_MANY];
    let mut serial = [0; TOO_MANY];
    let mut count = [0; TOO_MANY];
    let mut child = [0; SLOTS];
    let mut partial = [0.0; SLOTS];
    let slots = MOST_EDGES * n;
    let mut lent = Lent {
        tape: Tape::new(),
        nodes: NodesMut {
            value: &mut value[..n],
            serial: &mut serial[..n],
            count: &mut count[..n],
            child: &mut child[..slots],
            partial: &mut partial[..slots],
        },
        adjoint: &mut adjoint[..n],
    };
    let report = Report { rt, capacity: n };
    session::run(&report, &mut lent)?;
    slices::run(&report, &mut lent)
}
