// Refusals: why a call was not carried out. Each has its number in document 01's list, as document 02 amends it.
// `Malformed` is of session files alone, and no call on a tape gives it.
ghost use Rattle.std.specs.Prelude.{◌≡◌};
ghost use Rattle.tape.specs.Answers.{number};

#[derive(Clone, Copy, PartialEq, Eq)]
pub enum Refusal {
    Misshapen = 1,
    UnknownOperation = 2,
    Stale = 3,
    Detached = 4,
    Full = 5,
    SerialsSpent = 6,
    UnsoundEdge = 7,
    ListingTooLong = 8,
    Malformed = 9,
    NeverIssued = 11,
    OutOfTurn = 12,
    UnfitSlice = 13,
}

impl Refusal {
    // The refusal's number: 1 to 9, 11, 12 or 13.
    pub fn number(self) -> u8
        ensures { result ≡ number self }
    {
        self as u8
    }
}
