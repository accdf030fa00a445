// What is written of a file: a line with its verdict or its fault, and under it what the verdict rests on.
use crate::fit::{Steps, Taken};
use crate::flux::{Fault, Turns};
use crate::model::Drive;
use crate::out;
use crate::out::Counted;
use crate::passes::Passes;
use crate::spread::Spread;
use crate::verdict::{ByCells, Judged, Unfit};
use std::{fmt, io};
use tape::Refusal;
use track::TURN;

const RPM: f64 = 300.0;

const NANOSECONDS: f64 = 2_000.0;

pub(crate) fn fault(rt: &impl Print, name: &[u8], fault: Fault) -> io::Result<()> {
    rt.write_all(name)?;
    println!(rt; ": {fault}")
}

pub(crate) fn verdict(
    rt: &impl Print,
    name: &[u8],
    judged: Judged,
    steps: &Steps,
    turns: Turns,
) -> io::Result<()> {
    let all = turns.ticks.len();
    rt.write_all(name)?;
    print!(rt; ": ")?;
    match judged.verdict {
        Ok(()) => {
            fitted(rt, steps.last.drive, judged.spread)?;
            let turn = Counted(turns.times.len(), "turn");
            print!(rt; "{turn}, {} off", SomeOf(judged.off, all))?;
        }
        Err(unfit) => {
            print!(rt; "not fitted: {}", WhyNot(unfit, all))?;
        }
    }
    services(rt, steps.last.passes)?;
    println!(rt;)
}

// Where passes were cut, how often the reader's motor could be served.
fn services(rt: &impl Print, passes: Passes) -> io::Result<()> {
    match passes.slice {
        None => Ok(()),
        Some(_) => {
            let slices = Counted(passes.slices, "slice");
            let nodes = Counted(passes.most, "node");
            print!(rt; "; {slices}, at most {nodes} between two services")
        }
    }
}

fn fitted(rt: &impl Print, drive: Drive, spread: Spread) -> io::Result<()> {
    print!(rt; "fitted: speed ")?;
    setting(rt, drive.speed, spread.speed, RPM, "rpm", "index time")?;
    print!(rt; ", cell ")?;
    setting(rt, drive.cell, spread.cell, NANOSECONDS, "ns", "interval")?;
    print!(rt; ", rms ")?;
    out::decimal(rt, spread.rms * NANOSECONDS, 1)?;
    print!(rt; " ns; ")
}

// A setting in its unit, with its error or why it has none.
fn setting(
    rt: &impl Print,
    x: f64,
    error: Option<f64>,
    nominal: f64,
    unit: &str,
    one: &str,
) -> io::Result<()> {
    match error {
        Some(error) => {
            out::with_error(rt, x * nominal, error * nominal)?;
            print!(rt; " {unit}")
        }
        None => {
            out::decimal(rt, x * nominal, 3)?;
            print!(rt; " {unit} (one {one}, so no standard error)")
        }
    }
}

// Some of all intervals.
#[derive(Clone, Copy)]
struct SomeOf(usize, usize);

impl fmt::Display for SomeOf {
    fn fmt<W: fmt::Write>(&self, f: &mut fmt::Formatter<W>) -> fmt::Result {
        write!(f, "{} of {}", self.0, Counted(self.1, "interval"))
    }
}

// Why there is no result, of so many intervals.
#[derive(Clone, Copy)]
struct WhyNot(Unfit, usize);

impl fmt::Display for WhyNot {
    fn fmt<W: fmt::Write>(&self, f: &mut fmt::Formatter<W>) -> fmt::Result {
        let all = self.1;
        match self.0 {
            Unfit::Refused(refusal) => {
                write!(f, "refusal {}{}", refusal.number(), in_words(refusal))
            }
            Unfit::HighDensity(n) => {
                write!(
                    f,
                    "{} one cell long, as of a high density disk",
                    SomeOf(n, all)
                )
            }
            Unfit::Unknown(n) => write!(
                f,
                "{} one cell long, beside longer ones: GCR, or noise",
                SomeOf(n, all)
            ),
            Unfit::Gcr(n) => write!(f, "{} longer than four cells, as in GCR", SomeOf(n, all)),
            Unfit::Fm(n) => write!(
                f,
                "only {} three cells long: FM, or no data",
                SomeOf(n, all)
            ),
            Unfit::Off(n) => write!(f, "{} more than a quarter of a cell off", SomeOf(n, all)),
            Unfit::TurnOff(turn) => write!(f, "more than an eighth off in turn {turn}"),
            Unfit::Unsettled => write!(f, "the steps do not settle"),
        }
    }
}

// Which of the two refusals where a handle is not live. The library has no Display, which document 01 leaves behind; each
// program has its own words.
fn in_words(refusal: Refusal) -> &'static str {
    match refusal {
        Refusal::Stale => " (stale handle)",
        Refusal::NeverIssued => " (handle never issued)",
        _ => "",
    }
}

pub(crate) fn by_cells(rt: &impl Print, counts: ByCells) -> io::Result<()> {
    print!(rt; "  intervals of 1 to 8 cells:")?;
    for count in counts {
        print!(rt; " {count}")?;
    }
    println!(rt;)
}

// A line for each turn: its speed, the intervals that are off, whether it is a part, and whether its index time stands
// apart.
pub(crate) fn turns(rt: &impl Print, turns: Turns, seen: f64) -> io::Result<()> {
    for (i, time) in turns.times.iter().enumerate() {
        print!(rt; "  turn {}: ", i + 1)?;
        turn(rt, *time, turns.ticks_of(i), seen, turns.median)?;
    }
    Ok(())
}

fn turn(rt: &impl Print, time: u32, ticks: &[u32], seen: f64, median: u32) -> io::Result<()> {
    let off = SomeOf(track::count_off(ticks, seen), ticks.len());
    out::decimal(rt, RPM * TURN / time as f64, 3)?;
    print!(rt; " rpm, {off} off")?;
    if is_a_part(time, ticks) {
        print!(rt; ", a part of the turn")?;
    }
    if track::is_apart(time, median) {
        print!(rt; ", its index time apart from the others and left out")?;
    }
    println!(rt;)
}

// A turn of which more than 1/64 was not read is told: where the speed wavers, a part does not do.
fn is_a_part(time: u32, ticks: &[u32]) -> bool {
    time_of(ticks) < (time - time / 64) as u64
}

// A time that 64 bits do not hold is none of a turn.
fn time_of(ticks: &[u32]) -> u64 {
    ticks
        .iter()
        .fold(0u64, |sum, t| sum.saturating_add(*t as u64))
}

// A line for each step: where it was taken, the misfit there, and the edges that its passes visited.
pub(crate) fn steps(rt: &impl Print, steps: &Steps) -> io::Result<()> {
    for (i, taken) in steps.taken.iter().enumerate() {
        print!(rt; "  step {}: ", i + 1)?;
        step(rt, *taken)?;
    }
    Ok(())
}

fn step(rt: &impl Print, taken: Taken) -> io::Result<()> {
    print!(rt; "misfit ")?;
    out::decimal(rt, taken.misfit, 9)?;
    print!(rt; ", speed ")?;
    out::decimal(rt, taken.drive.speed * RPM, 3)?;
    print!(rt; " rpm, cell ")?;
    out::decimal(rt, taken.drive.cell * NANOSECONDS, 3)?;
    println!(rt; " ns, {} edges", taken.edges)
}
