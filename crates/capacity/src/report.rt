// What is written to standard output: a line an answer, with the state that it leaves.
use crate::filling::Filled;
use crate::powers::Powers;
use crate::slices::Cut;
use dual::Sliced;
use expr::Recorded;
use listing::bits_of;
use std::{fmt, io};
use tape::{Handle, Lookup, Refusal, Tape};

// Lines on tapes of one capacity.
#[derive(Drop)]
pub struct Report<'a, P> {
    pub rt: &'a P,
    pub capacity: usize,
}

impl<P: Print> Report<'_, P> {
    // A start, stop, mark or rewind of the tape, and the state after it.
    pub(crate) fn moved<F: FnOnce(Tape) -> Result<Tape, Refusal>>(
        &self,
        call: &str,
        tape: Tape,
        step: F,
    ) -> io::Result<Tape>
        requires { F.IsAlwaysCallable step }
    {
        match step(tape) {
            Ok(after) => {
                self.line(call, State(after))?;
                Ok(after)
            }
            Err(refusal) => {
                self.refused_at(call, refusal, tape)?;
                Ok(tape)
            }
        }
    }

    pub(crate) fn recorded(
        &self,
        call: &str,
        answer: Result<Recorded, Refusal>,
        after: Tape,
    ) -> io::Result<()> {
        let state = State(after);
        match answer {
            Ok(
                Recorded {
                    value,
                    handle: Some(handle),
                    ..
                },
            ) => {
                let bits = bits_of(value);
                let at = At(handle);
                self.line(call, format_args!(" value={bits:016x}{at}{state}"))
            }
            Ok(Recorded { value, .. }) => {
                let bits = bits_of(value);
                self.line(call, format_args!(" value={bits:016x} detached{state}"))
            }
            Err(refusal) => self.refused_at(call, refusal, after),
        }
    }

    pub(crate) fn sliced(
        &self,
        call: &str,
        answer: Result<Sliced, Refusal>,
        after: Tape,
    ) -> io::Result<()> {
        let state = State(after);
        match answer {
            Ok(Sliced { visited, left, .. }) => {
                self.line(call, format_args!(" visited={visited} left={left}{state}"))
            }
            Err(refusal) => self.refused_at(call, refusal, after),
        }
    }

    pub(crate) fn passed(&self, call: &str, answer: Result<u32, Refusal>) -> io::Result<()> {
        match answer {
            Ok(edges) => self.line(call, format_args!(" visited={edges}")),
            Err(refusal) => self.refused(call, refusal),
        }
    }

    pub(crate) fn cleared(&self, call: &str, answer: Result<(), Refusal>) -> io::Result<()> {
        match answer {
            Ok(()) => self.line(call, " done"),
            Err(refusal) => self.refused(call, refusal),
        }
    }

    pub(crate) fn read(&self, call: &str, answer: Result<f64, Refusal>) -> io::Result<()> {
        match answer {
            Ok(x) => self.line(call, format_args!(" value={:016x}", bits_of(x))),
            Err(refusal) => self.refused(call, refusal),
        }
    }

    pub(crate) fn listed(&self, call: &str, answer: Result<usize, Refusal>) -> io::Result<()> {
        match answer {
            Ok(bytes) => self.line(call, format_args!(" written={bytes}")),
            Err(refusal) => self.refused(call, refusal),
        }
    }

    pub(crate) fn liveness(
        &self,
        call: &str,
        answer: Result<Option<Lookup>, Refusal>,
    ) -> io::Result<()> {
        self.line(call, Found(answer))
    }

    // What a handle is on a tape with this next serial.
    pub(crate) fn looked_up(
        &self,
        handle: Handle,
        next: u64,
        answer: Result<Option<Lookup>, Refusal>,
    ) -> io::Result<()> {
        let found = Found(answer);
        self.line("is live", format_args!("{} next={next}{found}", At(handle)))
    }

    // Whether the state and what was lent to be written are as they were.
    pub(crate) fn kept(&self, call: &str, same: bool) -> io::Result<()> {
        let words = if same { " nothing changed" } else { " changed" };
        self.line(call, words)
    }

    // Whether the adjoints are those that the pass in one go left.
    pub(crate) fn compared(&self, call: &str, same: bool) -> io::Result<()> {
        let words = if same {
            " every adjoint as in one go"
        } else {
            " other adjoints"
        };
        self.line(call, words)
    }

    pub(crate) fn filled(&self, filled: Filled, after: Tape) -> io::Result<()> {
        // Where no leaf was recorded, the handle that is never live is shown.
        let first = At(filled.first.unwrap_or(Handle::NEVER_LIVE));
        let last = At(filled.last.unwrap_or(Handle::NEVER_LIVE));
        self.line(
            "leaves",
            format_args!(
                " in_order={} first{first} last{last}{}",
                filled.in_order,
                State(after)
            ),
        )
    }

    pub(crate) fn last_power(&self, powers: Powers, after: Tape) -> io::Result<()> {
        let last = At(powers.last);
        self.line("last power", format_args!("{last}{}", State(after)))
    }

    // A pass in slices, from its first slice to its last.
    pub(crate) fn cut(&self, call: &str, cut: Cut, after: Tape) -> io::Result<()> {
        let state = State(after);
        self.line(
            call,
            format_args!(
                " slices={} visited={} left={}{state}",
                cut.slices, cut.edges, cut.left
            ),
        )
    }

    // A call that is refused, and hands back no state.
    pub(crate) fn refused(&self, call: &str, refusal: Refusal) -> io::Result<()> {
        self.line(call, Reason(refusal))
    }

    fn refused_at(&self, call: &str, refusal: Refusal, tape: Tape) -> io::Result<()> {
        self.line(call, format_args!("{}{}", Reason(refusal), State(tape)))
    }

    fn line(&self, call: &str, came_to: impl fmt::Display + Drop) -> io::Result<()> {
        println!(self.rt; "n={} {call}:{came_to}", self.capacity)
    }
}

#[derive(Clone, Copy)]
struct State(Tape);

impl fmt::Display for State {
    fn fmt<W: fmt::Write>(&self, f: &mut fmt::Formatter<W>) -> fmt::Result {
        let tape = self.0;
        write!(
            f,
            " length={} mark={} active={} next={}",
            tape.length, tape.mark, tape.active as u8, tape.next
        )?;
        match tape.walk {
            Some(span) => write!(f, " open={}..{}", span.from, span.end),
            None => Ok(()),
        }
    }
}

#[derive(Clone, Copy)]
struct At(Handle);

impl fmt::Display for At {
    fn fmt<W: fmt::Write>(&self, f: &mut fmt::Formatter<W>) -> fmt::Result {
        write!(f, " index={} serial={}", self.0.index, self.0.serial)
    }
}

// The refusal's number, and in words which of the two where a handle is not live. The library has no Display, which
// document 01 leaves behind: each program has its own words.
#[derive(Clone, Copy)]
struct Reason(Refusal);

impl fmt::Display for Reason {
    fn fmt<W: fmt::Write>(&self, f: &mut fmt::Formatter<W>) -> fmt::Result {
        write!(f, " refused={}", self.0.number())?;
        f.write_str(match self.0 {
            Refusal::Stale => " (stale handle)",
            Refusal::NeverIssued => " (handle never issued)",
            _ => "",
        })
    }
}

#[derive(Clone, Copy)]
struct Found(Result<Option<Lookup>, Refusal>);

impl fmt::Display for Found {
    fn fmt<W: fmt::Write>(&self, f: &mut fmt::Formatter<W>) -> fmt::Result {
        match self.0 {
            Ok(Some(Lookup::Live)) => f.write_str(" live"),
            Ok(Some(Lookup::Stale)) => f.write_str(" stale"),
            Ok(Some(Lookup::NeverIssued)) => f.write_str(" never issued"),
            Ok(None) => f.write_str(" a number"),
            Err(refusal) => write!(f, "{}", Reason(refusal)),
        }
    }
}
