// A call that was refused for its stale handle, made again with other handles in the place of that one: garbage, which
// was never issued, and its own serial at indexes past the length.
use crate::calls::Task;
use crate::carry_out::carry_out;
use crate::kinds::Kind;
use crate::list::List;
use crate::machine::{CAPACITY, Machine};
use crate::said::{Refused, Said};
use crate::sequences::{Run, Stage};
use crate::subject::Way;
use crate::tally::Aside;
use std::fmt;
use std::fmt::Display;
use tape::{Handle, Lookup, Operand, Refusal, Tape};

// The call, the stale handle in it, and which of the operands that is.
#[derive(Clone, Copy)]
struct Spot {
    task: Task,
    stale: Handle,
    left: bool,
    right: bool,
}

// What a call answered, and whether it left the tape as it was.
#[derive(Clone, Copy)]
struct Made {
    said: Said,
    same_state: bool,
    same_values: bool,
    same_adjoints: bool,
}

// What came of a handle, with what it has to be refused as.
#[derive(Clone, Copy)]
struct Got {
    handle: Handle,
    wanted: Refusal,
    liveness: Result<Option<Lookup>, Refusal>,
    made: Made,
}

pub(crate) fn replay<R: Print>(list: &mut List<'_, R>, run: &mut Run<'_>) {
    let Stage::EndedStale(task) = run.stage else {
        return;
    };
    let spot = Spot::of(&run.machine, task);
    let tape = run.machine.tape;
    let issued = run.way == Way::Issued;
    let indexes = [spot.stale.index, tape.length, CAPACITY, usize::MAX];
    // The first two are enough for a control.
    let taken = if issued { 2 } else { indexes.len() };
    for (i, &index) in indexes.iter().take(taken).enumerate() {
        for (k, &serial) in spot.serials(tape, issued).iter().enumerate() {
            // The first index with the first serial stands for the stale handle itself, which has been refused.
            if i > 0 || k > 0 {
                let wanted = if k == 0 {
                    Refusal::Stale
                } else {
                    Refusal::NeverIssued
                };
                spot.try_with(list, run, Handle { index, serial }, wanted);
            }
        }
    }
}

// Carries the call out, which has to leave all as it was; what is lent for values and adjoints up to its end, so that
// what is written behind the last node is seen.
fn make(machine: &mut Machine<'_>, task: Task, way: Way, line: u64) -> Made {
    let tape = machine.tape;
    let before = machine.digests(CAPACITY);
    let heard = carry_out(machine, task, way, line);
    let after = machine.digests(CAPACITY);
    let state = machine.tape;
    machine.tape = tape;
    Made {
        said: heard.said,
        same_state: state == Tape { walk: None, ..tape },
        same_values: after.values == before.values,
        same_adjoints: after.adjoints == before.adjoints,
    }
}

// The refusal that a call gets for a handle which is_live finds so.
fn refusal_for(liveness: Result<Option<Lookup>, Refusal>) -> Option<Refusal> {
    match liveness {
        Ok(Some(Lookup::Stale)) => Some(Refusal::Stale),
        Ok(Some(Lookup::NeverIssued)) => Some(Refusal::NeverIssued),
        _ => None,
    }
}

fn exchanged(x: Operand, stale: bool, handle: Handle) -> Operand {
    if stale { Operand::Node(handle) } else { x }
}

impl Spot {
    fn of(machine: &Machine<'_>, task: Task) -> Spot {
        let left = is_stale(machine, task.left);
        let x = if left { task.left } else { task.right };
        Spot {
            task,
            stale: match x {
                Operand::Number(_) => Handle::NEVER_LIVE,
                Operand::Node(handle) => handle,
            },
            left,
            right: is_stale(machine, task.right),
        }
    }

    // The stale handle's own, and then those that were never issued; for a control one that was never issued where it
    // should have been, and then those that were.
    fn serials(self, tape: Tape, issued: bool) -> [u64; 4] {
        if issued {
            [0, 1, tape.next.saturating_sub(1), self.stale.serial]
        } else {
            [self.stale.serial, 0, tape.next, u64::MAX]
        }
    }

    // Makes the call with this handle, reports what is amiss and counts it.
    fn try_with<R: Print>(
        self,
        list: &mut List<'_, R>,
        run: &mut Run<'_>,
        handle: Handle,
        wanted: Refusal,
    ) {
        let liveness = run.machine.is_live(Operand::Node(handle));
        let task = self.with(handle);
        let got = Got {
            handle,
            wanted,
            liveness,
            made: make(&mut run.machine, task, run.way, list.tally.lines),
        };
        let agrees = got.agrees();
        list.tally
            .next_case(got.kind() as usize, agrees, Aside::default());
        if !agrees {
            list.amiss(&got);
            run.stage = Stage::Broken;
        }
    }

    // The call with this handle in the place of the stale one.
    fn with(self, handle: Handle) -> Task {
        let task = self.task;
        Task {
            left: exchanged(task.left, self.left, handle),
            right: exchanged(task.right, self.right, handle),
            ..task
        }
    }
}

fn is_stale(machine: &Machine<'_>, x: Operand) -> bool {
    refusal_for(machine.is_live(x)) == Some(Refusal::Stale)
}

impl Got {
    fn kind(self) -> Kind {
        if self.wanted == Refusal::NeverIssued {
            Kind::Garbage
        } else {
            Kind::PastTheLength
        }
    }

    fn agrees(self) -> bool {
        let made = self.made;
        self.is_refused()
            && self.is_found()
            && made.same_state
            && made.same_values
            && made.same_adjoints
    }

    fn is_refused(self) -> bool {
        self.made.said == Said::Refused(self.wanted)
    }

    fn is_found(self) -> bool {
        refusal_for(self.liveness) == Some(self.wanted)
    }
}

// The handle, and what is not as it has to be.
impl Display for Got {
    fn fmt<W: fmt::Write>(&self, f: &mut fmt::Formatter<W>) -> fmt::Result {
        let got = *self;
        let kind = got.kind().name();
        let Handle { index, serial } = got.handle;
        write!(f, "{kind} index {index} serial {serial} got")?;
        if !got.is_refused() {
            got.made.said.fmt(f)?;
        }
        if !got.is_found() {
            write_liveness(f, got.liveness)?;
        }
        write_unless(f, got.made.same_state, " another state")?;
        write_unless(f, got.made.same_values, " other values")?;
        write_unless(f, got.made.same_adjoints, " other adjoints")
    }
}

fn write_liveness<W: fmt::Write>(
    f: &mut fmt::Formatter<W>,
    liveness: Result<Option<Lookup>, Refusal>,
) -> fmt::Result {
    f.write_str(" is_live")?;
    match liveness {
        Ok(Some(Lookup::Live)) => f.write_str(" live"),
        Ok(Some(Lookup::Stale)) => f.write_str(" stale"),
        Ok(Some(Lookup::NeverIssued)) => f.write_str(" never issued"),
        Ok(None) => f.write_str(" a number"),
        Err(refusal) => Refused(refusal).fmt(f),
    }
}

fn write_unless<W: fmt::Write>(f: &mut fmt::Formatter<W>, same: bool, words: &str) -> fmt::Result {
    if same { Ok(()) } else { f.write_str(words) }
}
