// Two leaves, their product, a pass back, an adjoint; then a rewind, and the product is refused, as is a handle that no
// call answered (docs/CALLING.md).
#![tactic(auto)]

use dual::passes::backward;
use dual::reading::adjoint;
use expr::operators::new_leaf;
use expr::recording::record;
use expr::{MULTIPLY, Recorded, Supplied};
use listing::bits_of;
use std::io;
use tape::{Handle, Nodes, NodesMut, Operand, Refusal, Tape};

// Two of the recorded nodes, as operands, and the state after the last of them.
#[derive(Clone, Copy)]
struct Noted {
    leaf: Operand,
    product: Operand,
    tape: Tape,
}

fn main(rt: HostRuntime) -> io::Result<()> {
    // Room for three nodes, of two edges each. The arrays may hold anything.
    let mut nodes = NodesMut {
        value: &mut [0.0; 3],
        serial: &mut [0; 3],
        count: &mut [0; 3],
        child: &mut [0; 6],
        partial: &mut [0.0; 6],
    };
    let mut adjoints = [0.0; 3];
    match multiply(&mut nodes, &mut adjoints) {
        Ok(noted) => ask(&rt, noted, nodes.shared(), &mut adjoints),
        Err(refusal) => refused(&rt, refusal),
    }
}

// Each call takes the state that the last one handed back.
fn multiply(nodes: &mut NodesMut<'_>, adjoints: &mut [f64]) -> Result<Noted, Refusal> {
    let tape = Tape::new().start_recording()?;
    let x = new_leaf(tape, nodes, adjoints, 3.0)?;
    let y = new_leaf(x.tape, nodes, adjoints, 2.0)?;
    let leaf = operand(x);
    let product = record(
        y.tape,
        nodes,
        adjoints,
        MULTIPLY,
        leaf,
        operand(y),
        Supplied::NONE,
    )?;
    Ok(Noted {
        leaf,
        product: operand(product),
        tape: product.tape,
    })
}

// A value that has no node, since the tape was inactive, is used again as a number. The program worked has the same: each
// example stands by itself.
fn operand(x: Recorded) -> Operand {
    x.handle.map_or(Operand::Number(x.value), Operand::Node)
}

fn ask(rt: &impl Print, noted: Noted, nodes: Nodes<'_>, adjoints: &mut [f64]) -> io::Result<()> {
    let tape = noted.tape;
    match backward(tape, nodes, adjoints, noted.product) {
        Ok(edges) => println!(rt; "edges visited: {edges}")?,
        Err(refusal) => refused(rt, refusal)?,
    }
    show(rt, adjoint(tape, nodes, adjoints, noted.leaf))?;
    match tape.rewind_to_init() {
        Ok(tape) => ask_in_vain(rt, tape, nodes, adjoints, noted.product),
        Err(refusal) => refused(rt, refusal),
    }
}

// A handle whose node was dropped, and one that stands where no call has answered one yet.
fn ask_in_vain(
    rt: &impl Print,
    tape: Tape,
    nodes: Nodes<'_>,
    adjoints: &[f64],
    dropped: Operand,
) -> io::Result<()> {
    show(rt, adjoint(tape, nodes, adjoints, dropped))?;
    let none = Operand::Node(Handle::NEVER_LIVE);
    show(rt, adjoint(tape, nodes, adjoints, none))
}

// A float is shown by its bits, as in a listing.
fn show(rt: &impl Print, answer: Result<f64, Refusal>) -> io::Result<()> {
    match answer {
        Ok(x) => println!(rt; "adjoint: {:016x}", bits_of(x)),
        Err(refusal) => refused(rt, refusal),
    }
}

// The library has no Display, which document 01 leaves behind: each program has its own words.
fn refused(rt: &impl Print, refusal: Refusal) -> io::Result<()> {
    let kind = match refusal {
        Refusal::Stale => " (stale handle)",
        Refusal::NeverIssued => " (handle never issued)",
        _ => "",
    };
    println!(rt; "refused: {}{kind}", refusal.number())
}
