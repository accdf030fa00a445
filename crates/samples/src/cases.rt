// Cases that are run, and compared with the answers that they have to get.
use crate::answer::taken_apart;
use crate::files::{Case, LONGEST, Outcome, read_case, read_outcome};
use crate::lent::MOST_LISTING;
use crate::{lent, report};
use std::fs::File;
use std::io::Read;
use std::rt::Files;
use std::{fmt, io};

// No file has so many.
const MOST_CASES: u64 = 1_000_000;

// What is counted of a file. A count stops at its largest number, which no file reaches.
#[derive(Clone, Copy, Default)]
pub struct Tally {
    pub cases: u64,
    pub answered: u64,
    pub refused: u64,
    pub differ: u64,
}

impl Tally {
    // With one case more.
    fn with(self, is_refused: bool, agrees: bool) -> Tally {
        Tally {
            cases: self.cases.saturating_add(1),
            answered: self.answered.saturating_add(u64::from(!is_refused)),
            refused: self.refused.saturating_add(u64::from(is_refused)),
            differ: self.differ.saturating_add(u64::from(!agrees)),
        }
    }
}

impl fmt::Display for Tally {
    fn fmt<W: fmt::Write>(&self, f: &mut fmt::Formatter<W>) -> fmt::Result {
        let Tally {
            cases,
            answered,
            refused,
            differ,
        } = *self;
        write!(
            f,
            "{cases} cases, {answered} answered, {refused} refused, {differ} differ"
        )
    }
}

// Runs the cases of a file, and counts those whose answers differ from the ones in the other.
pub(crate) fn compare(
    rt: &(impl Files + Print),
    list: &str,
    cases: &str,
    answers: &str,
) -> io::Result<()> {
    let Ok(mut cases) = File::open(rt, cases) else {
        return report::unreadable(rt, list);
    };
    let Ok(mut answers) = File::open(rt, answers) else {
        return report::unreadable(rt, list);
    };
    let tally = compare_all(rt, list, &mut cases, &mut answers)?;
    report::summary(rt, list, tally)
}

fn compare_all(
    rt: &impl Print,
    list: &str,
    cases: &mut impl Read,
    answers: &mut impl Read,
) -> io::Result<Tally> {
    let mut text = [0u8; LONGEST];
    let mut lent = [0u8; MOST_LISTING];
    let mut tally = Tally::default();
    for number in 1..MOST_CASES {
        let Some(case) = read_case(cases, &mut text) else {
            break;
        };
        let got = run_case(case, &mut lent);
        let wanted = read_outcome(answers);
        if got != wanted {
            report::difference(rt, list, number, got, wanted, tally.differ)?;
        }
        tally = tally.with(taken_apart(got.number).is_err(), got == wanted);
    }
    Ok(tally)
}

fn run_case(case: Case<'_>, lent: &mut [u8; MOST_LISTING]) -> Outcome {
    let lent = &mut lent[..case.room];
    let number = lent::run(case.session, lent);
    Outcome {
        number,
        digest: lent::digest(lent),
    }
}
