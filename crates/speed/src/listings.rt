// A full tape of drawn numbers, listed as often as it is asked for.
use crate::plan::{NODES, next};
use listing::float_of;
use listing::listing::list;
use tape::{Nodes, Refusal, Tape};

const OTHER_SEED: u64 = 0x2545_f491_4f6c_dd1d;

// A node's line has at most 53 bytes. What the first lines leave has room for the header. With the arrays of a tape this
// is 6.4 MB of stack, of which a process has 8 as a rule: no more than a plan's recording takes with them.
pub const LISTING_BYTES: usize = 53 * NODES;

// Writes one listing over the other, as many as asked for, and answers how long the last one is. The adjoints are drawn,
// other numbers than the leaves have.
pub(crate) fn repeat(
    times: u64,
    tape: Tape,
    nodes: Nodes<'_>,
    adjoint: &mut [f64],
    out: &mut [u8; LISTING_BYTES],
) -> Result<usize, Refusal> {
    draw_all(adjoint);
    let mut bytes = 0;
    for _ in 0..times {
        bytes = list(tape, nodes, adjoint, out)?;
    }
    Ok(bytes)
}

fn draw_all(floats: &mut [f64]) {
    let mut draw = OTHER_SEED;
    for x in floats {
        draw = next(draw);
        *x = float_of(draw);
    }
}
