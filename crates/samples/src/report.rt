// What is written to standard output.
use crate::answer::taken_apart;
use crate::cases::Tally;
use crate::files::Outcome;
use crate::lent;
use std::io;

// A listing of so many bytes is shown whole.
const MOST_SHOWN: usize = 400;

// So many of the cases that differ are shown.
const MOST_DIFFERENCES: u64 = 20;

pub(crate) fn unreadable(rt: &impl Print, name: &str) -> io::Result<()> {
    println!(rt; "{name}: cannot be read")
}

// What the session of this name answered, whether the bytes that are not the listing's stayed, and the listing.
pub(crate) fn answer(rt: &impl Print, name: &str, number: u64, lent: &[u8]) -> io::Result<()> {
    let answer = taken_apart(number);
    let end = answer.map_or(0, |bytes| lent.len().min(bytes as usize));
    let (listing, others) = lent.split_at(end);
    let count = others.len();
    match answer {
        Ok(bytes) => print!(rt; "{name}: {bytes} bytes, {count} behind them")?,
        Err(refused) => print!(rt; "{name}: {refused}, {count} bytes")?,
    }
    let state = if lent::is_filled(others) {
        "untouched"
    } else {
        "changed"
    };
    println!(rt; " {state}")?;
    if listing.len() <= MOST_SHOWN {
        rt.write_all(listing)?;
    }
    Ok(())
}

// One of the first cases that differ, with what it answered and what it has to answer.
pub(crate) fn difference(
    rt: &impl Print,
    list: &str,
    at: u64,
    got: Outcome,
    wanted: Outcome,
    before: u64,
) -> io::Result<()> {
    if before >= MOST_DIFFERENCES {
        return Ok(());
    }
    println!(rt; "{list}: case {at}: got {got}, wanted {wanted}")
}

pub(crate) fn summary(rt: &impl Print, list: &str, tally: Tally) -> io::Result<()> {
    println!(rt; "{list}: {tally}")
}
