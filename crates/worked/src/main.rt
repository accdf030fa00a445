// Document 01's worked example by the public calls on real arrays: how many edges the pass visited, how many bytes the
// listing has, and the listing, which is document 01's text byte for byte.
#![tactic(auto)]

mod session;

use session::Shown;
use std::io;
use tape::{NodesMut, Refusal};

fn main(rt: HostRuntime) -> io::Result<()> {
    let mut nodes = NodesMut {
        value: &mut [0.0; 5],
        serial: &mut [0; 5],
        count: &mut [0; 5],
        child: &mut [0; 10],
        partial: &mut [0.0; 10],
    };
    let mut adjoint = [0.0; 5];
    let mut out = [0u8; 300];
    match session::run(&mut nodes, &mut adjoint, &mut out) {
        Ok(shown) => show(&rt, shown, &out),
        Err(refusal) => refused(&rt, refusal),
    }
}

fn show(rt: &impl Print, shown: Shown, out: &[u8]) -> io::Result<()> {
    println!(rt; "edges={}", shown.edges)?;
    println!(rt; "bytes={}", shown.bytes)?;
    match out.get(..shown.bytes) {
        Some(listing) => rt.write_all(listing),
        None => Ok(()),
    }
}

// In words which of the two, where a handle is not live. The library has no Display, which document 01 leaves behind: each
// program has its own words.
fn refused(rt: &impl Print, refusal: Refusal) -> io::Result<()> {
    let kind = match refusal {
        Refusal::Stale => " (stale handle)",
        Refusal::NeverIssued => " (handle never issued)",
        _ => "",
    };
    println!(rt; "refused={}{kind}", refusal.number())
}
