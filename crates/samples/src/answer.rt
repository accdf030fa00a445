// The number that the export answers, taken apart.
use std::fmt;

// What a refusal's number is multiplied by, so that the line can be added.
const LINES: u64 = 16_777_216;

// Why a session is refused, in the export's own number, and at which line.
#[derive(Clone, Copy)]
pub struct Refused {
    pub refusal: u64,
    pub line: u64,
}

// How many bytes the listing has, or the refusal.
pub(crate) fn taken_apart(number: u64) -> Result<u64, Refused> {
    if number < LINES {
        return Ok(number);
    }
    Err(Refused {
        refusal: number / LINES,
        line: number % LINES,
    })
}

impl fmt::Display for Refused {
    fn fmt<W: fmt::Write>(&self, f: &mut fmt::Formatter<W>) -> fmt::Result {
        let Refused { refusal, line } = *self;
        let words = in_words(refusal);
        write!(f, "refused {refusal}{words} at line {line}")
    }
}

// The export is C's: a refusal comes as a number.
const STALE: u64 = 3;

const FULL: u64 = 5;

const TOO_LONG: u64 = 8;

const MALFORMED: u64 = 9;

fn in_words(refusal: u64) -> &'static str {
    match refusal {
        STALE => " (no such node)",
        FULL => " (tape full)",
        TOO_LONG => " (listing too long)",
        MALFORMED => " (malformed)",
        _ => "",
    }
}
