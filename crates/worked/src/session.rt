// Leaves 3 and 2, their product, the product plus the first leaf, and backward from the last.
use dual::passes::backward;
use expr::operators::new_leaf;
use expr::recording::record;
use expr::{ADD, MULTIPLY, Recorded, Supplied};
use listing::listing::list;
use tape::{NodesMut, Operand, Refusal, Tape};

// How many edges the pass visited, and how many bytes the listing has.
#[derive(Clone, Copy)]
pub struct Shown {
    pub edges: u32,
    pub bytes: usize,
}

// Writes the listing into `out`.
pub(crate) fn run(
    nodes: &mut NodesMut<'_>,
    adjoint: &mut [f64],
    out: &mut [u8],
) -> Result<Shown, Refusal> {
    let last = record_four(nodes, adjoint)?;
    let tape = last.tape;
    let edges = backward(tape, nodes.shared(), adjoint, operand(last))?;
    let bytes = list(tape, nodes.shared(), adjoint, out)?;
    Ok(Shown { edges, bytes })
}

fn record_four(nodes: &mut NodesMut<'_>, adjoint: &mut [f64]) -> Result<Recorded, Refusal> {
    let tape = Tape::new().start_recording()?;
    let three = new_leaf(tape, nodes, adjoint, 3.0)?;
    let two = new_leaf(three.tape, nodes, adjoint, 2.0)?;
    let product = record(
        two.tape,
        nodes,
        adjoint,
        MULTIPLY,
        operand(three),
        operand(two),
        Supplied::NONE,
    )?;
    record(
        product.tape,
        nodes,
        adjoint,
        ADD,
        operand(product),
        operand(three),
        Supplied::NONE,
    )
}

// A value that has no node, since the tape was inactive, is used again as a number. The program calling has the same: each
// example stands by itself.
fn operand(x: Recorded) -> Operand {
    x.handle.map_or(Operand::Number(x.value), Operand::Node)
}
