// The tape's small state. Start, stop, marks and rewinds take it by value and hand it back as it is after them; where
// they refuse, 1, and all but start 12 while a walk is open, it stays as it was. None of them touches an array.
ghost use Rattle.std.specs.Prelude.{◌≡◌};
ghost use Rattle.tape.specs.Numbers.{floats};
ghost use Rattle.tape.specs.Machine.{Arrays, machine, new_tape, with_walk, walk_left};
ghost use Rattle.tape.specs.Admission.{admission, admitted};
ghost use Rattle.tape.specs.Calls.{move, start, stop, set_mark, reset_mark, rewind_to_mark, rewind_to_init};
ghost use Rattle.tape.specs.Steps.{step};
ghost use Rattle.tape.specs.Inner.{no_arrays, moved_by};
ghost use Rattle.tape.specs.Answers.{outcome};

use crate::admission::{Caller, Lengths};
use crate::errors::Refusal;

// The nodes from end - 1 down to from. A `Range` is no `Copy`, and the state is.
#[derive(Clone, Copy, PartialEq, Eq)]
pub struct Span {
    pub from: usize,
    pub end: usize,
}

#[derive(Clone, Copy, PartialEq, Eq)]
pub struct Tape {
    pub length: usize,
    pub mark: usize,
    pub active: bool,
    pub next: u64,
    // The walk that is open, if one is: the nodes that are left of it.
    pub walk: Option<Span>,
}

impl Tape {
    // A new tape: empty, mark 0, inactive, the first serial 1, no walk open.
    pub fn new() -> Tape
        ensures { result ≡ new_tape }
    {
        Tape {
            length: 0,
            mark: 0,
            active: false,
            next: 1,
            walk: None,
        }
    }

    // Drops every node, the mark and a walk that is open, and records from now on.
    pub fn start_recording(self) -> Result<Tape, Refusal>
        ensures { (A : Arrays floats) → outcome result self A ≡ step (move start) (machine self A) }
    {
        // The next serial stays: were serials to begin anew, an old handle would come to life.
        let after = Tape {
            length: 0,
            mark: 0,
            active: true,
            walk: None,
            ..self
        };
        self.moved_to(Caller::Start, after)
    }

    // Records no more; the nodes stay.
    pub fn stop_recording(self) -> Result<Tape, Refusal>
        ensures { (A : Arrays floats) → outcome result self A ≡ step (move stop) (machine self A) }
    {
        let after = Tape {
            active: false,
            ..self
        };
        self.moved_to(Caller::Move, after)
    }

    // Sets the mark behind the last node.
    pub fn set_mark(self) -> Result<Tape, Refusal>
        ensures { (A : Arrays floats) → outcome result self A ≡ step (move set_mark) (machine self A) }
    {
        let after = Tape {
            mark: self.length,
            ..self
        };
        self.moved_to(Caller::Move, after)
    }

    // Sets the mark before the first node.
    pub fn reset_mark(self) -> Result<Tape, Refusal>
        ensures { (A : Arrays floats) → outcome result self A ≡ step (move reset_mark) (machine self A) }
    {
        self.moved_to(Caller::Move, Tape { mark: 0, ..self })
    }

    // Drops the nodes past the mark.
    pub fn rewind_to_mark(self) -> Result<Tape, Refusal>
        ensures { (A : Arrays floats) → outcome result self A ≡ step (move rewind_to_mark) (machine self A) }
    {
        let after = Tape {
            length: self.mark,
            ..self
        };
        self.moved_to(Caller::Move, after)
    }

    // Drops every node and the mark.
    pub fn rewind_to_init(self) -> Result<Tape, Refusal>
        ensures { (A : Arrays floats) → outcome result self A ≡ step (move rewind_to_init) (machine self A) }
    {
        let after = Tape {
            length: 0,
            mark: 0,
            ..self
        };
        self.moved_to(Caller::Move, after)
    }

    // The same state with these nodes left to be walked; where they are none, no walk is open. A pass that is opened
    // and a slice leave it so.
    pub fn walking(self, left: Span) -> Tape
        ensures { result ≡ with_walk (walk_left left) self }
    {
        Tape {
            walk: left.left_open(),
            ..self
        }
    }

    // The state after, unless the call is refused.
    fn moved_to(self, caller: Caller, after: Tape) -> Result<Tape, Refusal>
        ensures { result ≡ moved_by (admitted (admission caller no_arrays self)) after }
    {
        self.admit(caller, Lengths::NONE)?;
        Ok(after)
    }
}

impl Span {
    // A walk of these nodes, which is over if they are none.
    fn left_open(self) -> Option<Span>
        ensures { result ≡ walk_left self }
    {
        if self.from < self.end {
            Some(self)
        } else {
            None
        }
    }
}
