// What a list says of a case and what the port says in its place, as they are written in a report: each with a space
// before it.
use std::fmt;
use std::fmt::Display;
use tape::Refusal;

// Words, each a float's 64 bits.
#[derive(Clone, Copy)]
pub struct Words<'a>(pub &'a [u64]);

impl Display for Words<'_> {
    fn fmt<W: fmt::Write>(&self, f: &mut fmt::Formatter<W>) -> fmt::Result {
        for bits in self.0 {
            write!(f, " {bits:016x}")?;
        }
        Ok(())
    }
}

// What a call answers: nothing; a float; the number of a node; a float that is detached; a number of edges. The port
// also refuses, or a slice of its has left a wrong number of nodes, and no list has words for these.
#[derive(Clone, Copy, PartialEq, Eq)]
pub enum Said {
    Nothing,
    Float(u64),
    Node(u64),
    Detached(u64),
    Visited(u64),
    Refused(Refusal),
    Left(usize),
}

impl From<Refusal> for Said {
    fn from(refusal: Refusal) -> Said {
        Said::Refused(refusal)
    }
}

impl Display for Said {
    fn fmt<W: fmt::Write>(&self, f: &mut fmt::Formatter<W>) -> fmt::Result {
        match *self {
            Said::Nothing => Ok(()),
            Said::Float(bits) => write!(f, " {bits:016x}"),
            Said::Node(number) => write!(f, " n{number}"),
            Said::Detached(bits) => write!(f, " p{bits:016x}"),
            Said::Visited(edges) => write!(f, " v{edges}"),
            Said::Refused(refusal) => Refused(refusal).fmt(f),
            Said::Left(nodes) => write!(f, " left {nodes}"),
        }
    }
}

// The library has no Display, which document 01 leaves behind; each program has its own words for a refusal.
#[derive(Clone, Copy)]
pub struct Refused(pub Refusal);

impl Display for Refused {
    fn fmt<W: fmt::Write>(&self, f: &mut fmt::Formatter<W>) -> fmt::Result {
        let number = self.0.number();
        let words = match self.0 {
            Refusal::Stale => " (stale handle)",
            Refusal::NeverIssued => " (handle never issued)",
            _ => "",
        };
        write!(f, " refusal {number}{words}")
    }
}

// One word for all values on the tape, and one for all adjoints.
#[derive(Clone, Copy, PartialEq, Eq)]
pub struct Digests {
    pub values: u64,
    pub adjoints: u64,
}

// The answer of a call of a sequence, with the digests after it where the line has them.
#[derive(Clone, Copy, PartialEq, Eq)]
pub struct Answer {
    pub said: Said,
    pub digests: Option<Digests>,
}

impl Display for Answer {
    fn fmt<W: fmt::Write>(&self, f: &mut fmt::Formatter<W>) -> fmt::Result {
        let said = self.said;
        write!(f, "{said}")?;
        if let Some(Digests { values, adjoints }) = self.digests {
            write!(f, " {values:016x} {adjoints:016x}")?;
        }
        Ok(())
    }
}
