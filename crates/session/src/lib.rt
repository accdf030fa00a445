// Session files: a session as text is run on a tape of 1,024 nodes, and the tape is listed.
#![tactic(auto)]

mod lines;
mod reading;
mod running;

ghost use Rattle.std.specs.Prelude.{◌≤◌, ◌<◌, [], ◌∷◌, ◌≡◌, length, IfErr};
ghost use Rattle.tape.specs.Machine.{lent_mut};
ghost use Rattle.tape.specs.Answers.{number};
ghost use Rattle.tape.specs.Calls.{move, start};
ghost use Rattle.tape.specs.Kept.{fresh, after};
ghost use Rattle.session.specs.Lines.{Reader};
ghost use Rattle.session.specs.Session.{run_lines, lines, most_session, least_refusal, refusal, reported, answered};
ghost use Rattle.session.specs.Inner.{reading, returned};

use lines::{Stop, run_lines};
use listing::listing::list;
use tape::{MOST_EDGES, NodesMut, Refusal, Tape};

// Runs a session and writes the listing; the bytes behind it stay. Answers how many bytes it has or, at a refusal, its
// number times 16,777,216 plus the line, and then every byte stays: 9 for a malformed line, and with line 0 for a
// session of over 65,536 bytes; 3 for an index not below the length; 5 past 1,024 nodes; and with line 0, 8 where the
// listing does not fit. In the promise R is what reads a line: the inverse of the lines' texts, of which there is one
// and no other (`OneReader` of specs/Lines.antt). The answer is one number, refusals too, since crate session_c hands it
// to C as it is.
pub fn ingthabor_session(session: &[u8], listing: &mut [u8]) -> u32
    ensures { (R : Reader) → (result, listing.new) ≡ answered R session.now listing.old }
{
    if MOST_SESSION < session.len() {
        return number_of(at_no_line(Refusal::Malformed));
    }
    let mut adjoint = [0.0; NODES];
    let mut nodes = NodesMut {
        value: &mut [0.0; NODES],
        serial: &mut [0u64; NODES],
        count: &mut [0u8; NODES],
        child: &mut [0u16; MOST_EDGES * NODES],
        partial: &mut [0.0; MOST_EDGES * NODES],
    };
    match run_and_list(session, &mut nodes, &mut adjoint, listing) {
        Ok(bytes) => bytes,
        Err(stop) => number_of(stop),
    }
}

const MOST_SESSION: usize = 65_536;

const NODES: usize = 1_024;

// A number below it counts bytes.
const LEAST_REFUSAL: u32 = 16_777_216;

// How many bytes the listing has, or where the session was refused.
fn run_and_list(
    session: &[u8],
    nodes: &mut NodesMut<'_>,
    adjoint: &mut [f64],
    listing: &mut [u8],
) -> Result<u32, Stop>
    requires { length session.now ≤ most_session }
    ensures number { (returned result, listing.new)
        ≡ reported (run_lines reading 1 (lines session.now) (after (move start ∷ []) (fresh (lent_mut nodes.old adjoint.old)))) listing.old }
    ensures small { IfErr result (λ s. s.line < least_refusal) }
{
    // A start on a new tape is never refused.
    let tape = Tape::new().start_recording().unwrap();
    let after = run_lines(session, tape, nodes, adjoint)?;
    let bytes = list(after, nodes.shared(), &*adjoint, listing).map_err(at_no_line)?;
    Ok(bytes as u32)
}

fn at_no_line(refusal: Refusal) -> Stop
    ensures { result ≡ record { refusal = refusal; line = 0 } }
{
    Stop { refusal, line: 0 }
}

// The number that tells of a refusal and its line.
fn number_of(stop: Stop) -> u32
    requires { stop.line < least_refusal }
    ensures { result ≡ refusal (number stop.refusal) stop.line }
{
    stop.refusal.number() as u32 * LEAST_REFUSAL + stop.line
}
