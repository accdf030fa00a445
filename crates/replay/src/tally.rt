// What is counted of a list. A count stops at its largest number, which no list reaches.
use crate::kinds::KINDS;

// What of a case is not held to the Rust's answer: its value, its partials.
#[derive(Clone, Copy, Default)]
pub struct Aside {
    pub value: bool,
    pub partials: bool,
}

// Of one kind: how many cases there are, how many differ, and of how many the value and the partials are not held to
// the Rust's.
#[derive(Clone, Copy, Default)]
pub struct Count {
    pub cases: u64,
    pub differ: u64,
    pub apart: u64,
    pub tie: u64,
}

// Forward numbers have fewer kinds than the tape.
#[derive(Clone, Copy, Default)]
pub struct Tally {
    pub lines: u64,
    pub malformed: u64,
    pub runs: u64,
    pub broken_runs: u64,
    pub slices: u64,
    pub counts: [Count; KINDS],
}

impl Tally {
    pub(crate) fn next_line(&mut self) {
        self.lines = self.lines.saturating_add(1);
    }

    pub(crate) fn not_a_case(&mut self) {
        self.malformed = self.malformed.saturating_add(1);
    }

    // A whole sequence, and whether a line of it differs or is no call.
    pub(crate) fn next_run(&mut self, broken: bool) {
        self.runs = self.runs.saturating_add(1);
        self.broken_runs = raised(self.broken_runs, broken);
    }

    pub(crate) fn more_slices(&mut self, taken: u64) {
        self.slices = self.slices.saturating_add(taken);
    }

    // One more case of the kind at this place.
    pub(crate) fn next_case(&mut self, kind: usize, agrees: bool, aside: Aside) {
        let Some(count) = self.counts.get_mut(kind) else {
            return;
        };
        *count = Count {
            cases: raised(count.cases, true),
            differ: raised(count.differ, !agrees),
            apart: raised(count.apart, aside.value),
            tie: raised(count.tie, aside.partials),
        };
    }
}

fn raised(count: u64, by_one: bool) -> u64 {
    count.saturating_add(u64::from(by_one))
}
