// The turns that a file holds, and whether they are in order. A reader hands them over one by one, an index time with
// `begin_revolution` and then each interval with `add_interval`. The intervals of all turns go into one lent slice, one
// after another, in ticks of 25 ns.
ghost use Rattle.std.specs.Prelude.{◌≡◌, ◌<◌, ◌≤◌, ◌^◌, length};
ghost use Rattle.arrayvec.specs.ArrayVec.{array_vec_len};

use arrayvec::ArrayVec;
use std::fmt;

const MOST_REVOLUTIONS: usize = 64;

const MOST_IN_REVOLUTION: usize = 131_072;

pub const MOST_INTERVALS: usize = 524_288;

// A turn at 300 rpm, less a tenth and more a tenth.
const SHORTEST_TURN: u32 = 7_200_000;

const LONGEST_TURN: u32 = 8_800_000;

// Why a file was not read to its end.
#[derive(Clone, Copy)]
pub enum Fault {
    // The file itself.
    Missing,
    Denied,
    Folder,
    LongName,
    Circle,
    Device,
    Unreadable,
    // What it begins with, or what it is made of.
    Scp,
    Kryoflux,
    Hfe,
    Ipf,
    Applesauce,
    FluxEngine,
    NotText,
    Empty,
    // An entry, which is a line in a text, from 1 on.
    Line(usize, Wrong),
}

// What is wrong with an entry.
#[derive(Clone, Copy)]
pub enum Wrong {
    // The line.
    ByteOrderMark,
    EmptyLine,
    CarriageReturn,
    Space,
    NoNumber,
    // The turns.
    Early,
    NoInterval,
    WrongSpeed,
    PastIndex,
    LongRevolution,
    LongFile,
    ManyRevolutions,
}

// What was read so far.
#[derive(Drop)]
pub struct Reading<'a> {
    // The time of each revolution, from its index pulse to the next, and how many intervals passed before it: two lists,
    // since the median is taken of the times alone.
    times: ArrayVec<u32, MOST_REVOLUTIONS>,
    starts: ArrayVec<usize, MOST_REVOLUTIONS>,
    // All intervals so far, in the first places of a lent slice: an ArrayVec of so many is moved when it is made, and runs
    // out of stack.
    ticks: &'a mut [u32],
    intervals: usize,
    // The intervals of the last revolution, and their time together.
    latest: usize,
    spent: u64,
    ghost as_many: { array_vec_len starts ≡ array_vec_len times },
    ghost few_intervals: { intervals ≤ length ticks.now },
    ghost short: { spent < 2 ^ 34 },
}

// What was read: the time of each turn, how many intervals passed before it, all intervals, and the median of the times.
#[derive(Clone, Copy)]
pub struct Turns<'a> {
    pub times: &'a [u32],
    pub starts: &'a [usize],
    pub ticks: &'a [u32],
    pub median: u32,
}

impl<'a> Reading<'a> {
    pub(crate) fn new(ticks: &'a mut [u32]) -> Reading<'a> {
        Reading {
            times: ArrayVec::new(),
            starts: ArrayVec::new(),
            ticks,
            intervals: 0,
            latest: 0,
            spent: 0,
        }
    }

    pub(crate) fn begin_revolution(&mut self, time: u32) -> Result<(), Fault> {
        if !self.times.is_empty() && self.latest == 0 {
            return Err(self.at_last(Wrong::NoInterval));
        }
        if self.times.is_full() {
            return Err(self.at_this(Wrong::ManyRevolutions));
        }
        if time < SHORTEST_TURN || LONGEST_TURN < time {
            return Err(self.at_this(Wrong::WrongSpeed));
        }
        let passed = self.intervals;
        self.times.push(time);
        self.starts.push(passed);
        self.latest = 0;
        self.spent = 0;
        Ok(())
    }

    pub(crate) fn add_interval(&mut self, time: u32) -> Result<(), Fault> {
        let Some(turn) = self.times.last() else {
            return Err(self.at_this(Wrong::Early));
        };
        if self.spent > *turn as u64 {
            return Err(self.at_this(Wrong::PastIndex));
        }
        if self.latest >= MOST_IN_REVOLUTION {
            return Err(self.at_this(Wrong::LongRevolution));
        }
        let at = self.intervals;
        if at >= self.ticks.len() {
            return Err(self.at_this(Wrong::LongFile));
        }
        self.ticks[at] = time;
        self.intervals = at + 1;
        self.latest += 1;
        self.spent += time as u64;
        Ok(())
    }

    // At the end of the file: whether anything was in it, and in its last revolution.
    pub(crate) fn end(&self) -> Result<(), Fault> {
        if self.times.is_empty() {
            return Err(Fault::Empty);
        }
        if self.latest == 0 {
            return Err(self.at_last(Wrong::NoInterval));
        }
        Ok(())
    }

    pub(crate) fn is_empty(&self) -> bool {
        self.entries() == 0
    }

    // That the entry behind the last is wrong.
    pub(crate) fn at_this(&self, wrong: Wrong) -> Fault {
        Fault::Line(self.entries().saturating_add(1), wrong)
    }

    fn at_last(&self, wrong: Wrong) -> Fault {
        Fault::Line(self.entries(), wrong)
    }

    // An entry is an interval or begins a revolution.
    fn entries(&self) -> usize {
        self.intervals + self.times.len()
    }

    pub(crate) fn turns(&self) -> Turns<'_> {
        let times = self.times.as_slice();
        let all: &[u32] = self.ticks;
        Turns {
            times,
            starts: self.starts.as_slice(),
            ticks: &all[..self.intervals],
            median: track::median(times),
        }
    }
}

impl<'a> Turns<'a> {
    // The intervals of turn i. That the turns lie in order within the ticks is asked again, in place of a proof.
    pub(crate) fn ticks_of(self, i: usize) -> &'a [u32]
        requires { i < length self.times.now }
    {
        let from = self.start(i);
        let end = self.start(i + 1);
        self.ticks.get(from..end).unwrap_or(&[])
    }

    fn start(self, i: usize) -> usize {
        self.starts.get(i).copied().unwrap_or(self.ticks.len())
    }
}

impl fmt::Display for Fault {
    fn fmt<W: fmt::Write>(&self, f: &mut fmt::Formatter<W>) -> fmt::Result {
        match self {
            Fault::Missing => write!(f, "no such file"),
            Fault::Denied => write!(f, "may not be read"),
            Fault::Folder => write!(f, "a folder"),
            Fault::LongName => write!(f, "a name longer than any file's"),
            Fault::Circle => write!(f, "a link that leads in a circle"),
            Fault::Device => write!(f, "the device failed"),
            Fault::Unreadable => write!(f, "cannot be read"),
            Fault::Scp => write!(f, "not text: an SCP dump"),
            Fault::Kryoflux => write!(f, "not text: a KryoFlux stream"),
            Fault::Hfe => write!(f, "not text: an HFE image"),
            Fault::Ipf => write!(f, "not text: an IPF image"),
            Fault::Applesauce => write!(f, "not text: an Applesauce image"),
            Fault::FluxEngine => write!(f, "not text: a FluxEngine capture"),
            Fault::NotText => write!(f, "not text: a byte that no text has"),
            Fault::Empty => write!(f, "the file is empty"),
            Fault::Line(line, wrong) => write!(f, "line {line}: {wrong}"),
        }
    }
}

impl fmt::Display for Wrong {
    fn fmt<W: fmt::Write>(&self, f: &mut fmt::Formatter<W>) -> fmt::Result {
        match self {
            Wrong::ByteOrderMark => write!(f, "a byte order mark: save as plain text, without one"),
            Wrong::EmptyLine => write!(f, "an empty line"),
            Wrong::CarriageReturn => write!(f, "a carriage return: save with line feeds alone"),
            Wrong::Space => write!(f, "a space or a tab where none belongs"),
            Wrong::NoNumber => write!(
                f,
                "neither a whole number of ticks, 1 to 99999999, nor 'revolution N'"
            ),
            Wrong::Early => write!(f, "an interval before the first 'revolution N'"),
            Wrong::NoInterval => write!(f, "a revolution with no interval"),
            Wrong::WrongSpeed => write!(
                f,
                "not a 300 rpm drive, whose revolution takes {SHORTEST_TURN} to {LONGEST_TURN} ticks"
            ),
            Wrong::PastIndex => write!(f, "an interval that begins after the next index pulse"),
            Wrong::LongRevolution => write!(
                f,
                "more than {MOST_IN_REVOLUTION} intervals in a revolution"
            ),
            Wrong::LongFile => write!(f, "more than {MOST_INTERVALS} intervals in a file"),
            Wrong::ManyRevolutions => {
                write!(f, "more than {MOST_REVOLUTIONS} revolutions in a file")
            }
        }
    }
}
