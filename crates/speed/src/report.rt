// What a run comes to: how many edges its last walk visited, and a digest of the values and of the adjoints that it
// left; or a digest of square roots; or the length of a listing, and a digest of the lent bytes.
use crate::listings::LISTING_BYTES;
use crate::plan::{Reach, SEED, next};
use crate::roots::Sort;
use listing::bits_of;
use std::io;

pub(crate) fn rounds(
    rt: &impl Print,
    reach: Reach,
    times: u64,
    edges: u32,
    value: &[f64],
    adjoint: &[f64],
) -> io::Result<()> {
    let nodes = value.len();
    let values = digest(value);
    let adjoints = digest(adjoint);
    println!(rt;
        "{reach} times={times} nodes={nodes} edges={edges} values={values:016x} adjoints={adjoints:016x}"
    )
}

pub(crate) fn roots(rt: &impl Print, sort: Sort, times: u64, digest: u64) -> io::Result<()> {
    println!(rt; "{sort} times={times} digest={digest:016x}")
}

pub(crate) fn listing(
    rt: &impl Print,
    times: u64,
    bytes: usize,
    out: &[u8; LISTING_BYTES],
) -> io::Result<()> {
    let digest = digest_of_bytes(out);
    println!(rt; "listing times={times} bytes={bytes} digest={digest:016x}")
}

// As the recorded sequences have it (docs/REPLAY.md).
fn digest(floats: &[f64]) -> u64 {
    floats.iter().fold(SEED, |sum, &x| next(sum ^ bits_of(x)))
}

// One fold for floats and one for bytes: a closure for an item's bits would come with conditions of its own.
fn digest_of_bytes(bytes: &[u8]) -> u64 {
    bytes
        .iter()
        .fold(SEED, |sum, &byte| next(sum ^ u64::from(byte)))
}
