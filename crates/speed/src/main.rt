// Records, walks and rewinds a full tape as often as it is told, takes as many square roots, or lists a full tape. A
// line of standard input names a plan and a number of rounds, as `near 100`, and a line of output says what they came
// to. There is no clock here: bench/ measures from outside, and bench/run the Rust as well (docs/SPEED.md).
#![tactic(auto)]

mod listings;
mod plan;
mod report;
mod requests;
mod roots;
mod rounds;

ghost use Rattle.std.specs.Prelude.{◌≤◌, length, IfOk};

use listings::LISTING_BYTES;
use plan::{NODES, Reach};
use requests::{Plan, Request};
use std::io;
use std::io::{Cursor, Read};
use tape::{Nodes, NodesMut, Tape};

const SLOTS: usize = 2 * NODES;

// No more bytes of standard input are read.
const MOST_BYTES: usize = 4096;

fn main(rt: HostRuntime) -> io::Result<()> {
    let mut space = [0u8; MOST_BYTES];
    let text = read_full(&mut rt.stdin(), &mut space)?;
    for line in text.split_inclusive(|&byte| byte == b'\n') {
        // What stands behind the last line feed is no line.
        if let Some(line) = line.strip_suffix(b"\n") {
            run(&rt, Request::read(line))?;
        }
    }
    Ok(())
}

// Reads until the bytes are full or the input ends, and answers those that were read. The program samples has the same
// function; the two share no crate that reads.
fn read_full<'a>(input: &mut impl Read, bytes: &'a mut [u8]) -> io::Result<&'a [u8]>
    ensures { IfOk result (λ read. length read.now ≤ length bytes.old) }
{
    let room = bytes.len() as u64;
    let count = io::copy(&mut input.take(room), &mut Cursor::new(&mut *bytes))?;
    Ok(&bytes[..bytes.len().min(count as usize)])
}

fn run(rt: &impl Print, request: Request) -> io::Result<()> {
    let times = request.times;
    match request.plan {
        Plan::Tape(reach) => on_tape(rt, reach, times),
        Plan::Roots(sort) => report::roots(rt, sort, times, sort.repeat(times)),
    }
}

// Records on arrays of zeros. Leaves are recorded in one round, and then listed. Either goes by one call of `repeat`: from
// a single place the compiler puts `record` and `backward` there, and a node takes half the instructions.
fn on_tape(rt: &impl Print, reach: Reach, times: u64) -> io::Result<()> {
    let mut value = [0.0; NODES];
    let mut adjoint = [0.0; NODES];
    let mut serial = [0u64; NODES];
    let mut count = [0u8; NODES];
    let mut child = [0u16; SLOTS];
    let mut partial = [0.0; SLOTS];
    let mut nodes = NodesMut {
        value: &mut value,
        serial: &mut serial,
        count: &mut count,
        child: &mut child,
        partial: &mut partial,
    };
    let is_listed = reach == Reach::Leaves;
    let rounds = if is_listed { 1 } else { times };
    let done = rounds::repeat(reach, rounds, &mut nodes, &mut adjoint);
    if is_listed {
        let tape = done.map_or(Tape::new(), |round| round.tape);
        list(rt, times, tape, nodes.shared(), &mut adjoint)
    } else {
        let edges = done.map_or(0, |round| round.edges);
        report::rounds(rt, reach, times, edges, nodes.shared().value, &adjoint)
    }
}

// Apart from its caller, as its bytes and the plan of `repeat` need not stand on the stack at once.
#[inline(never)]
fn list(
    rt: &impl Print,
    times: u64,
    tape: Tape,
    nodes: Nodes<'_>,
    adjoint: &mut [f64],
) -> io::Result<()> {
    let mut out = [0u8; LISTING_BYTES];
    let bytes = listings::repeat(times, tape, nodes, adjoint, &mut out).unwrap_or(0);
    report::listing(rt, times, bytes, &out)
}
