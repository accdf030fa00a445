// Writes the listing into lent bytes. Whether it fits is settled before any byte is written. A writer takes a place and
// answers the one behind, as crate text's do.
ghost use Rattle.std.specs.Prelude.{◌+◌, ◌-◌, ◌≤◌, ◌<◌, ◌≡◌, ◌++◌, length};
ghost use Rattle.std.specs.Float.{binary64};
ghost use Rattle.std.specs.Float.Ieee.{to_bits};
ghost use Rattle.tape.specs.Numbers.{floats};
ghost use Rattle.tape.specs.Machine.{Arrays, machine, lent, most_nodes};
ghost use Rattle.tape.specs.Walk.{indexes};
ghost use Rattle.text.specs.Numerals.{hex, decimal};
ghost use Rattle.text.specs.Inner.{Wrote};
ghost use Rattle.tape.specs.Listing.{header, line, lines, listing};
ghost use Rattle.listing.specs.Outcome.{outcome, listed};

use crate::bits::bits_of;
use tape::{Caller, Lengths, Nodes, Refusal, Tape};
use text::{decimal_length, write_decimal, write_hex, write_text};

// Writes the header and one line per live node, and answers how many bytes these are; the bytes behind them stay.
// Refuses 1, and 8 where they do not fit.
pub fn list(tape: Tape, nodes: Nodes<'_>, adjoint: &[f64], out: &mut [u8]) -> Result<usize, Refusal>
    ensures { (outcome result (machine tape (lent nodes.entry adjoint.now)), out.new)
        ≡ listed (machine tape (lent nodes.entry adjoint.now)) out.old }
{
    tape.admit(Caller::Listing, Lengths::of(nodes, adjoint))?;
    if out.len() < listing_length(tape) {
        return Err(Refusal::ListingTooLong);
    }
    let at = write_header(out, 0, tape);
    Ok(write_lines(out, at, tape.length, nodes, adjoint))
}

// Beside its two numbers the header has three labels, the flag and a line feed.
const HEADER_BYTES: usize = 6 + 6 + 8 + 1 + 1;

// Beside its index a line has three labels, two patterns and a line feed.
const LINE_BYTES: usize = 5 + 5 + 5 + 2 * 16 + 1;

fn listing_length(tape: Tape) -> usize
    requires { tape.length ≤ most_nodes }
    ensures { (A : Arrays floats) → result ≡ length (listing (machine tape A)) }
{
    let nodes = decimal_length(tape.length as u64);
    let mark = decimal_length(tape.mark as u64);
    HEADER_BYTES + nodes + mark + lines_length(tape.length)
}

// Every index has a digit, and one more from 10, from 100, from 1,000 and from 10,000 on.
fn lines_length(nodes: usize) -> usize
    requires { nodes ≤ most_nodes }
    ensures { (A : Arrays floats) → result ≡ length (lines A (indexes 0 nodes)) }
{
    nodes * (LINE_BYTES + 1)
        + nodes.saturating_sub(10)
        + nodes.saturating_sub(100)
        + nodes.saturating_sub(1_000)
        + nodes.saturating_sub(10_000)
}

fn write_header(out: &mut [u8], at: usize, tape: Tape) -> usize
    requires { at + length (header tape) ≤ length out.old }
    ensures { Wrote out.old at (header tape) out.new result }
{
    let at_mark = write_labelled_decimal(out, at, b"nodes=", tape.length);
    let at_active = write_labelled_decimal(out, at_mark, b" mark=", tape.mark);
    let at_end = write_labelled_decimal(out, at_active, b" active=", tape.active as usize);
    write_text(out, at_end, b"\n")
}

// The lines of the first so many nodes, by index, which a line shows.
fn write_lines(out: &mut [u8], at: usize, live: usize, nodes: Nodes<'_>, adjoint: &[f64]) -> usize
    requires room { at + length (lines (lent nodes adjoint.now) (indexes 0 live)) ≤ length out.old }
    requires within { (live ≤ length nodes.value.now) × (live ≤ length adjoint.now) }
    ensures { Wrote out.old at (lines (lent nodes.entry adjoint.now) (indexes 0 live)) out.new result }
{
    let mut end = at;
    for i in 0..live {
        end = write_line(out, end, i, nodes, adjoint);
    }
    end
}

fn write_line(out: &mut [u8], at: usize, i: usize, nodes: Nodes<'_>, adjoint: &[f64]) -> usize
    requires room { at + length (line (lent nodes adjoint.now) i) ≤ length out.old }
    requires within { (i < length nodes.value.now) × (i < length adjoint.now) }
    ensures { Wrote out.old at (line (lent nodes.entry adjoint.now) i) out.new result }
{
    let at_value = write_labelled_decimal(out, at, b"node=", i);
    let at_adjoint = write_labelled_bits(out, at_value, b" val=", nodes.value[i]);
    let at_end = write_labelled_bits(out, at_adjoint, b" adj=", adjoint[i]);
    write_text(out, at_end, b"\n")
}

// One for decimals and one for bits: a trait of the two would be longer than both.
fn write_labelled_decimal(out: &mut [u8], at: usize, label: &[u8], n: usize) -> usize
    requires { at + length label.now + length (decimal n) ≤ length out.old }
    ensures { Wrote out.old at (label.now ++ decimal n) out.new result }
{
    let at_number = write_text(out, at, label);
    write_decimal(out, at_number, n as u64)
}

fn write_labelled_bits(out: &mut [u8], at: usize, label: &[u8], x: f64) -> usize
    requires { at + length label.now + 16 ≤ length out.old }
    ensures { Wrote out.old at (label.now ++ hex (to_bits binary64 x)) out.new result }
{
    let at_bits = write_text(out, at, label);
    write_hex(out, at_bits, bits_of(x))
}
