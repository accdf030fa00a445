// The admission: what is asked at the head of every call, which is told which call asks and how long the arrays are
// that it is lent.
ghost use Rattle.std.specs.Prelude.{◌≡◌, true};
ghost use Rattle.tape.specs.Machine.{all, lent};
ghost use Rattle.tape.specs.Admission.{lengths, is_lent, walk_fits, state_fits, fitting, while_open, while_closed, in_turn, slice_fits, admission, admitted};

use crate::errors::Refusal;
use crate::node::{MOST_EDGES, MOST_NODES};
use crate::nodes::Nodes;
use crate::tape::Tape;

// Which call asks to be let in. A pass asks alike whether it is opened or goes on to its end.
#[derive(Clone, Copy)]
pub enum Caller {
    Start,
    Move,
    Recording,
    Clearing,
    Passing,
    // How many nodes it is to take.
    Slice(usize),
    Value,
    Adjoint,
    Liveness,
    Listing,
}

// The lengths of the six lent arrays.
#[derive(Clone, Copy)]
pub struct Lengths {
    pub value: usize,
    pub adjoint: usize,
    pub serial: usize,
    pub count: usize,
    pub child: usize,
    pub partial: usize,
}

impl Lengths {
    // Of a call that is lent no array.
    pub(crate) const NONE: Lengths = Lengths {
        value: 0,
        adjoint: 0,
        serial: 0,
        count: 0,
        child: 0,
        partial: 0,
    };

    // The lengths of the arrays that a call is lent.
    pub fn of(nodes: Nodes<'_>, adjoint: &[f64]) -> Lengths
        ensures { result ≡ lengths (lent nodes.entry adjoint.now) }
    {
        Lengths {
            value: nodes.value.len(),
            adjoint: adjoint.len(),
            serial: nodes.serial.len(),
            count: nodes.count.len(),
            child: nodes.child.len(),
            partial: nodes.partial.len(),
        }
    }
}

impl Tape {
    // What every call is asked first: whether the state and the arrays that it is lent fit together (1), whether it may
    // come while a walk is open, or while none is (12), and a slice, whether it is to take 1 to 65,535 nodes (13).
    pub fn admit(self, caller: Caller, lent: Lengths) -> Result<(), Refusal>
        ensures { result ≡ admitted (admission caller lent self) }
    {
        if !self.is_shaped(caller.is_lent(), lent) {
            Err(Refusal::Misshapen)
        } else if !self.is_in_turn(caller) {
            Err(Refusal::OutOfTurn)
        } else if !caller.slice_fits() {
            Err(Refusal::UnfitSlice)
        } else {
            Ok(())
        }
    }

    fn is_shaped(self, lending: bool, lent: Lengths) -> bool
        ensures { result ≡ fitting lending lent self }
    {
        if lending {
            self.fits_into(lent)
        } else {
            self.state_fits(MOST_NODES)
        }
    }

    fn fits_into(self, lent: Lengths) -> bool
        ensures { result ≡ fitting true lent self }
    {
        let capacity = lent.value;
        if MOST_NODES < capacity {
            return false;
        }
        let slots = MOST_EDGES * capacity;
        (lent.adjoint == capacity)
            & (lent.serial == capacity)
            & (lent.count == capacity)
            & (lent.child == slots)
            & (lent.partial == slots)
            & self.state_fits(capacity)
    }

    // The state's own part of what has to fit, at most so many nodes long.
    fn state_fits(self, most: usize) -> bool
        ensures { result ≡ all (state_fits most self) }
    {
        (self.length <= most) & (self.mark <= self.length) & (self.next != 0) & self.walk_fits()
    }

    // A walk that is open has a node left, and none past the length.
    fn walk_fits(self) -> bool
        ensures { result ≡ walk_fits self.length self.walk }
    {
        match self.walk {
            None => true,
            Some(span) => (span.from < span.end) & (span.end <= self.length),
        }
    }

    fn is_in_turn(self, caller: Caller) -> bool
        ensures { result ≡ in_turn self.walk caller }
    {
        match self.walk {
            None => caller.while_closed(),
            Some(_) => caller.while_open(),
        }
    }
}

impl Caller {
    // Start, stop, marks and rewinds are lent no array.
    fn is_lent(self) -> bool
        ensures { result ≡ is_lent self }
    {
        !matches!(self, Caller::Start | Caller::Move)
    }

    // Whether the call is answered while a walk is open.
    fn while_open(self) -> bool
        ensures { result ≡ while_open self }
    {
        matches!(
            self,
            Caller::Start | Caller::Slice(_) | Caller::Adjoint | Caller::Listing
        )
    }

    // Whether it is answered while none is.
    fn while_closed(self) -> bool
        ensures { result ≡ while_closed self }
    {
        !matches!(self, Caller::Slice(_))
    }

    // A slice takes 1 to 65,535 nodes.
    fn slice_fits(self) -> bool
        ensures { result ≡ slice_fits self }
    {
        match self {
            Caller::Slice(nodes) => (0 < nodes) & (nodes <= MOST_NODES),
            _ => true,
        }
    }
}
