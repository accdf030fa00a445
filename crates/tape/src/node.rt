// Handles to nodes, and what a caller carries in place of the Rust's Dual: a plain number or a handle.
ghost use Rattle.std.specs.Prelude.{◌≡◌};
ghost use Rattle.tape.specs.Handles.{lives, never_issued, looked_up, usable_as};

use crate::errors::Refusal;
use crate::tape::Tape;

// How many nodes a tape has room for, so that a child's index fits 16 bits.
pub const MOST_NODES: usize = 65_535;

// How many edges a node has room for.
pub const MOST_EDGES: usize = 2;

// The node at index, as long as the serial stored there is this one. Document 01 has indexes for the Rust's pointers.
#[derive(Clone, Copy, PartialEq, Eq)]
pub struct Handle {
    pub index: usize,
    pub serial: u64,
}

#[derive(Clone, Copy)]
pub enum Operand {
    Number(f64),
    Node(Handle),
}

// What a lookup finds behind a handle.
#[derive(Clone, Copy, PartialEq, Eq)]
pub enum Lookup {
    Live,
    Stale,
    NeverIssued,
}

impl Handle {
    // A handle that is never live: document 01 gives serial 0 to no node.
    pub const NEVER_LIVE: Handle = Handle {
        index: 0,
        serial: 0,
    };

    // Whether the handle is live on a tape with these serials and, if it is not, whether its serial was given out so
    // far.
    pub fn lookup(self, tape: Tape, serial: &[u64]) -> Lookup
        ensures { result ≡ looked_up tape serial.now self }
    {
        // Only what is not live is sorted by its serial.
        if self.lives(tape.length, serial) {
            Lookup::Live
        } else if self.never_issued(tape) {
            Lookup::NeverIssued
        } else {
            Lookup::Stale
        }
    }

    // The same for a call that needs a live one: what is not live is refused, in this one place.
    pub fn usable(self, tape: Tape, serial: &[u64]) -> Result<(), Refusal>
        ensures { result ≡ usable_as tape serial.now self }
    {
        match self.lookup(tape, serial) {
            Lookup::Live => Ok(()),
            Lookup::Stale => Err(Refusal::Stale),
            Lookup::NeverIssued => Err(Refusal::NeverIssued),
        }
    }

    fn lives(self, length: usize, serial: &[u64]) -> bool
        ensures { result ≡ lives length serial.now self }
    {
        match serial.get(self.index) {
            Some(stored) => (self.index < length) & (self.serial != 0) & (*stored == self.serial),
            None => false,
        }
    }

    // Whether no node was given its serial so far.
    fn never_issued(self, tape: Tape) -> bool
        ensures { result ≡ never_issued tape self }
    {
        (self.serial == 0) | (tape.next <= self.serial)
    }
}
