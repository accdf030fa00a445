// A list that is replayed, and what is written of it to standard output. What cannot be written is not told, and the
// replay goes on.
use crate::subject::{Subject, Way};
use crate::tally::{Count, Tally};
use crate::words::split_word;
use crate::{forward_kinds, kinds};
use std::fmt;

// Where it is written to, the list's name, and what is counted of it.
#[derive(Drop)]
pub struct List<'a, R> {
    rt: &'a R,
    name: &'a str,
    pub tally: Tally,
}

impl<'a, R: Print> List<'a, R> {
    pub(crate) fn new(rt: &'a R, name: &'a str) -> List<'a, R> {
        List {
            rt,
            name,
            tally: Tally::default(),
        }
    }

    // That the list's file cannot be opened, or not be read to its end.
    pub(crate) fn unreadable(&self) {
        let name = self.name;
        let _ = println!(self.rt; "{name}.txt: cannot be read");
    }

    // That the line counted last is no case, which is counted too.
    pub(crate) fn malformed(&mut self) {
        self.place();
        let _ = println!(self.rt; "not a case");
        self.tally.not_a_case();
    }

    // What the port got for the case that begins on the line counted last, each part with a space before it.
    pub(crate) fn difference(&self, line: &[u8], got: &impl fmt::Display) {
        let (name, _) = split_word(line);
        self.place();
        let _ = self.rt.write_all(name);
        let _ = println!(self.rt; " got{got}");
    }

    // What of a case that came of the line counted last is not as it has to be.
    pub(crate) fn amiss(&self, got: &impl fmt::Display) {
        self.place();
        let _ = println!(self.rt; "{got}");
    }

    fn place(&self) {
        let name = self.name;
        let line = self.tally.lines;
        let _ = print!(self.rt; "{name}.txt:{line}: ");
    }

    // How many cases there were of each kind, how many of them differ, and how many lines are no case or, where passes
    // are cut, how many slices were taken.
    pub(crate) fn summary(&self, subject: Subject) {
        let way = subject.way();
        if let Subject::Forward(_) = subject {
            self.each_kind(way, &forward_kinds::NAMES, |_, _| true);
        } else {
            self.each_kind(
                way,
                &kinds::NAMES,
                |kind, cases| subject.reports(kind, cases),
            );
        }
        let name = self.name;
        let tally = self.tally;
        let Tally {
            runs,
            broken_runs,
            slices,
            malformed,
            ..
        } = tally;
        if runs > 0 {
            let _ = println!(self.rt; "{name}{way} runs={runs} differ={broken_runs}");
        }
        if way.is_cut() {
            let _ = println!(self.rt; "{name}{way} slices={slices}");
        } else {
            let _ = println!(self.rt; "{name}{way} malformed={malformed}");
        }
    }

    // The kinds of a table that are reported, which depends on how many cases there are.
    fn each_kind<K: Copy, F: Fn(K, u64) -> bool>(
        &self,
        way: Way,
        names: &[(&str, K)],
        is_reported: F,
    )
        requires { F.IsAlwaysCallable is_reported }
    {
        for (kind, counted) in names.iter().zip(self.tally.counts) {
            let (name, kind) = kind;
            if is_reported(*kind, counted.cases) {
                self.of_kind(way, name, counted);
            }
        }
    }

    fn of_kind(&self, way: Way, kind: &str, counted: Count) {
        let name = self.name;
        let Count {
            cases,
            differ,
            apart,
            tie,
        } = counted;
        let _ = print!(self.rt; "{name}{way} {kind} cases={cases} differ={differ}");
        if apart > 0 {
            let _ = print!(self.rt; " apart={apart}");
        }
        if tie > 0 {
            let _ = print!(self.rt; " tie={tie}");
        }
        let _ = println!(self.rt);
    }
}
