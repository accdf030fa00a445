// What is asked for in a line: its first letter tells the plan, its digits the number of rounds.
use crate::plan::Reach;
use crate::roots::Sort;

// No more digits are read once a number has come this far.
const MOST_TIMES: u64 = 1_000_000;

// A tape, whose rounds or listings are asked for, or square roots.
#[derive(Clone, Copy)]
pub enum Plan {
    Tape(Reach),
    Roots(Sort),
}

#[derive(Clone, Copy)]
pub struct Request {
    pub plan: Plan,
    pub times: u64,
}

impl Request {
    // A plan is named by its first letter, and the letters after it name none.
    pub(crate) fn read(line: &[u8]) -> Request {
        let plan = line.iter().find_map(|&byte| plan_named(byte));
        Request {
            plan: plan.unwrap_or(Plan::Tape(Reach::Regular)),
            times: line.iter().fold(0, |times, &byte| with(times, byte)),
        }
    }
}

fn plan_named(letter: u8) -> Option<Plan> {
    match letter {
        b'n' => Some(Plan::Tape(Reach::Near)),
        b'a' => Some(Plan::Tape(Reach::Anywhere)),
        b'r' => Some(Plan::Tape(Reach::Regular)),
        b'd' => Some(Plan::Roots(Sort::Doubles)),
        b's' => Some(Plan::Roots(Sort::Subnormals)),
        b'i' => Some(Plan::Roots(Sort::Idle)),
        b'l' => Some(Plan::Tape(Reach::Leaves)),
        _ => None,
    }
}

// The number with one digit more.
fn with(times: u64, byte: u8) -> u64 {
    match byte {
        b'0'..=b'9' if times < MOST_TIMES => 10 * times + u64::from(byte - b'0'),
        _ => times,
    }
}
