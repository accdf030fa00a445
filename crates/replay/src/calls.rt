// A line of a sequence: which call it is, what that is given and what it has to be answered.
use crate::kinds::{Kind, NAMES};
use crate::machine::UNLIKELY;
use crate::said::{Answer, Digests, Said};
use crate::words::{named, split_word};
use dual::Pass;
use expr::Supplied;
use listing::float_of;
use tape::{Handle, Operand, Refusal};
use text::{read_digits, read_hex_start};

// More nodes than a sequence records.
const NODES: usize = 32_768;

// The decimal digits of a number at most.
const MOST_DIGITS: usize = 5;

// Where the port put the node with each serial, which a list counts from 1 as the port does. No serial is left out, and
// there is no heap for a map.
#[derive(Drop)]
pub struct Places {
    indexes: [u16; NODES],
}

// A call with its operands and what is supplied for them. A pass has the left one as its root.
#[derive(Clone, Copy)]
pub struct Task {
    pub kind: Kind,
    pub left: Operand,
    pub right: Operand,
    pub given: Supplied,
}

// A call, and what it has to be answered. The Rust takes a stale one, which the port has to refuse.
#[derive(Clone, Copy)]
pub struct Call {
    pub task: Task,
    pub stale: bool,
    pub answer: Answer,
}

// The call that the line has, with the word `stale` before it or without.
pub(crate) fn read(line: &[u8], places: &Places) -> Option<Call> {
    let (name, rest) = split_word(line);
    if named(&NAMES, name)? == Kind::Stale {
        let (_, line) = rest.split_first()?;
        read_stale(line, places)
    } else {
        read_call(line, places)
    }
}

fn read_stale(line: &[u8], places: &Places) -> Option<Call> {
    let call = read_call(line, places)?;
    Some(Call {
        stale: true,
        answer: Answer {
            said: Said::Refused(Refusal::Stale),
            digests: None,
        },
        ..call
    })
}

fn read_call(line: &[u8], places: &Places) -> Option<Call> {
    let (name, rest) = split_word(line);
    let kind = named(&NAMES, name)?;
    if !kind.is_call() {
        return None;
    }
    let mut words = Unread { rest };
    let left = words.operand(kind.operands() > 0, places)?;
    let right = words.operand(kind.operands() > 1, places)?;
    let given = words.supplied(kind.supplied())?;
    let task = Task {
        kind,
        left,
        right,
        given,
    };
    let answer = words.answer(kind)?;
    if !words.rest.is_empty() {
        return None;
    }
    Some(Call {
        task,
        stale: false,
        answer,
    })
}

// The words of a line that are not read yet, each with a space before it.
#[derive(Drop)]
struct Unread<'a> {
    rest: &'a [u8],
}

impl Unread<'_> {
    fn said(&mut self) -> Option<Said> {
        let (_, text) = self.rest.split_first()?;
        let (word, rest) = split_word(text);
        self.rest = rest;
        read_said(word)
    }

    fn bits(&mut self) -> Option<u64> {
        match self.said()? {
            Said::Float(bits) => Some(bits),
            _ => None,
        }
    }

    // An operand is a node or a float, and 0 where the line has none.
    fn operand(&mut self, wanted: bool, places: &Places) -> Option<Operand> {
        if !wanted {
            return Some(Operand::Number(0.0));
        }
        match self.said()? {
            Said::Node(number) => Some(Operand::Node(places.handle(number))),
            Said::Float(bits) => Some(Operand::Number(float_of(bits))),
            _ => None,
        }
    }

    // What is supplied, in so many words.
    fn supplied(&mut self, count: usize) -> Option<Supplied> {
        let value = self.float(count > 0)?;
        let left = self.float(count > 1)?;
        let right = self.float(count > 2)?;
        Some(Supplied { value, left, right })
    }

    fn float(&mut self, wanted: bool) -> Option<f64> {
        if wanted {
            Some(float_of(self.bits()?))
        } else {
            Some(UNLIKELY)
        }
    }

    fn answer(&mut self, kind: Kind) -> Option<Answer> {
        let said = if kind.is_answered() {
            self.said()?
        } else {
            Said::Nothing
        };
        let digests = if kind.is_digested() {
            Some(self.digests()?)
        } else {
            None
        };
        Some(Answer { said, digests })
    }

    fn digests(&mut self) -> Option<Digests> {
        let values = self.bits()?;
        let adjoints = self.bits()?;
        Some(Digests { values, adjoints })
    }
}

// A word with the letter of a node, of a value that is detached or of a number of edges, or a bare one.
fn read_said(word: &[u8]) -> Option<Said> {
    match word {
        [] => None,
        [b'n', digits @ ..] => Some(Said::Node(read_digits(digits, MOST_DIGITS)?)),
        [b'v', digits @ ..] => Some(Said::Visited(read_digits(digits, MOST_DIGITS)?)),
        [b'p', digits @ ..] => Some(Said::Detached(read_bits(digits)?)),
        digits => Some(Said::Float(read_bits(digits)?)),
    }
}

fn read_bits(digits: &[u8]) -> Option<u64> {
    if digits.is_empty() {
        None
    } else {
        read_hex_start(digits)
    }
}

impl Task {
    // The pass that the call is, if it is one.
    pub(crate) fn pass(self) -> Option<Pass> {
        let root = self.left;
        match self.kind {
            Kind::Backward => Some(Pass::Backward(root)),
            Kind::BackwardToMark => Some(Pass::BackwardToMark(root)),
            Kind::BackwardMarkToStart => Some(Pass::BackwardMarkToStart(root)),
            Kind::PropagateToMark => Some(Pass::PropagateToMark),
            Kind::PropagateMarkToStart => Some(Pass::PropagateMarkToStart),
            _ => None,
        }
    }
}

impl Call {
    pub(crate) fn counted_as(self) -> Kind {
        if self.stale {
            Kind::Stale
        } else {
            self.task.kind
        }
    }
}

impl Places {
    pub(crate) fn new() -> Places {
        Places {
            indexes: [0; NODES],
        }
    }

    // Keeps the place of a node that was recorded.
    pub(crate) fn keep(&mut self, node: Handle) {
        let Ok(serial) = usize::try_from(node.serial) else {
            return;
        };
        let Ok(index) = u16::try_from(node.index) else {
            return;
        };
        if let Some(place) = self.indexes.get_mut(serial) {
            *place = index;
        }
    }

    fn handle(&self, serial: u64) -> Handle {
        let found = usize::try_from(serial)
            .ok()
            .and_then(|at| self.indexes.get(at));
        match found {
            Some(index) => Handle {
                index: usize::from(*index),
                serial,
            },
            None => Handle::NEVER_LIVE,
        }
    }
}
