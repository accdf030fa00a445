// The kinds of cases of the tape: the operations, then the other lines of a sequence.
ghost use Rattle.std.specs.Prelude.{◌≤◌};

#[derive(Clone, Copy, PartialEq, Eq)]
pub enum Kind {
    Leaf,
    Add,
    Subtract,
    Multiply,
    Divide,
    Max,
    Min,
    Negate,
    SuppliedOne,
    SuppliedTwo,
    Sqrt,
    // The calls that record nothing: those that move the mark or the length first, then the passes.
    StartRecording,
    StopRecording,
    SetMark,
    ResetMark,
    RewindToMark,
    RewindToInit,
    Backward,
    BackwardToMark,
    BackwardMarkToStart,
    PropagateToMark,
    PropagateMarkToStart,
    ResetAdjoints,
    Value,
    Adjoint,
    End,
    // What is no call: the word before a stale one, and the calls made again with another handle for the stale one, one
    // that was never issued, or one of the same serial at an index past the length.
    Stale,
    Garbage,
    PastTheLength,
}

pub const KINDS: usize = 29;

// The names, in the order in which they are declared and reported.
pub const NAMES: [(&str, Kind); KINDS] = [
    ("leaf", Kind::Leaf),
    ("add", Kind::Add),
    ("sub", Kind::Subtract),
    ("mul", Kind::Multiply),
    ("div", Kind::Divide),
    ("max", Kind::Max),
    ("min", Kind::Min),
    ("neg", Kind::Negate),
    ("supplied_one", Kind::SuppliedOne),
    ("supplied_two", Kind::SuppliedTwo),
    ("sqrt", Kind::Sqrt),
    ("start_recording", Kind::StartRecording),
    ("stop_recording", Kind::StopRecording),
    ("set_mark", Kind::SetMark),
    ("reset_mark", Kind::ResetMark),
    ("rewind_to_mark", Kind::RewindToMark),
    ("rewind_to_init", Kind::RewindToInit),
    ("backward", Kind::Backward),
    ("backward_to_mark", Kind::BackwardToMark),
    ("backward_mark_to_start", Kind::BackwardMarkToStart),
    ("propagate_to_mark", Kind::PropagateToMark),
    ("propagate_mark_to_start", Kind::PropagateMarkToStart),
    ("reset_adjoints", Kind::ResetAdjoints),
    ("value", Kind::Value),
    ("adjoint", Kind::Adjoint),
    ("end", Kind::End),
    ("stale", Kind::Stale),
    ("garbage", Kind::Garbage),
    ("past_the_length", Kind::PastTheLength),
];

impl Kind {
    pub(crate) fn name(self) -> &'static str {
        let (name, _) = NAMES[self as usize];
        name
    }

    // The number of an operation.
    pub(crate) fn operation(self) -> Option<u8> {
        match self {
            Kind::Leaf => Some(expr::LEAF),
            Kind::Add => Some(expr::ADD),
            Kind::Subtract => Some(expr::SUBTRACT),
            Kind::Multiply => Some(expr::MULTIPLY),
            Kind::Divide => Some(expr::DIVIDE),
            Kind::Max => Some(expr::MAX),
            Kind::Min => Some(expr::MIN),
            Kind::Negate => Some(expr::NEGATE),
            Kind::SuppliedOne => Some(expr::SUPPLIED_ONE),
            Kind::SuppliedTwo => Some(expr::SUPPLIED_TWO),
            Kind::Sqrt => Some(expr::SQRT),
            _ => None,
        }
    }

    // Whether the line has what the host supplies.
    pub(crate) fn is_supplied(self) -> bool {
        self.supplied() > 0
    }

    // Whether an operation answers one of its operands, max or min: at some of these the Rust departs from the rule.
    pub(crate) fn chooses(self) -> bool {
        matches!(self, Kind::Max | Kind::Min)
    }

    pub(crate) fn is_pass(self) -> bool {
        matches!(
            self,
            Kind::Backward
                | Kind::BackwardToMark
                | Kind::BackwardMarkToStart
                | Kind::PropagateToMark
                | Kind::PropagateMarkToStart
        )
    }

    // Whether a line of a sequence may be of this kind, with the word `stale` before it or without.
    pub(crate) fn is_call(self) -> bool {
        !matches!(self, Kind::Stale | Kind::Garbage | Kind::PastTheLength)
    }

    // How many operands a line has, its root or what it reads counted as one.
    pub(crate) fn operands(self) -> usize
        ensures { result ≤ 2 }
    {
        match self {
            Kind::Leaf | Kind::Negate | Kind::SuppliedOne | Kind::Sqrt => 1,
            Kind::Backward | Kind::BackwardToMark | Kind::BackwardMarkToStart => 1,
            Kind::Value | Kind::Adjoint => 1,
            _ if self.operation().is_some() => 2,
            _ => 0,
        }
    }

    // How many words are supplied: a value, and a partial for each operand.
    pub(crate) fn supplied(self) -> usize
        ensures { result ≤ 3 }
    {
        match self {
            Kind::SuppliedOne => 2,
            Kind::SuppliedTwo => 3,
            _ => 0,
        }
    }

    // Whether a line of a sequence has a number that was answered.
    pub(crate) fn is_answered(self) -> bool {
        self.operation().is_some() || self.is_pass() || matches!(self, Kind::Value | Kind::Adjoint)
    }

    // Whether a line of a sequence has digests of the values and of the adjoints.
    pub(crate) fn is_digested(self) -> bool {
        self.is_pass() || matches!(self, Kind::ResetAdjoints | Kind::End)
    }
}
