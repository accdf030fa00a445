// A pass carried out in slices of drawn sizes, each of which has to say how many nodes are left.
use crate::carry_out::Heard;
use crate::machine::Machine;
use crate::said::Said;
use crate::subject::Way;
use crate::words::stirred;
use dual::{Pass, Sliced};
use tape::{MOST_NODES, Operand, Refusal};

// With the number of a pass's line, what the sizes of its slices are drawn from.
const SEED: u64 = 0x2545_f491_4f6c_dd1d;

// A size is drawn from 1 up to this. A walk of a list has ten nodes or so.
const SMALL: u64 = 6;

// One size in so many is the largest that may be asked for.
const SELDOM: u64 = 16;

// A pass that is under way: the edges visited so far, the nodes that are left, how many slices were taken, and what the
// next size is drawn from.
#[derive(Clone, Copy)]
struct Cut {
    visited: u64,
    left: usize,
    slices: u64,
    draws: u64,
}

// Opens the pass on the line and takes slices, with the last one where it is to be whole.
pub(crate) fn pass_in_slices(machine: &mut Machine<'_>, pass: Pass, line: u64, way: Way) -> Heard {
    let mut cut = Cut {
        visited: 0,
        left: 0,
        slices: 0,
        draws: stirred(SEED ^ line),
    };
    let walked = cut.walk(machine, pass, way == Way::InSlices);
    Heard {
        said: match walked {
            Ok(()) => Said::Visited(cut.visited),
            Err(amiss) => amiss,
        },
        node: None,
        slices: cut.slices,
    }
}

impl Cut {
    // An error is what is amiss.
    fn walk(&mut self, machine: &mut Machine<'_>, pass: Pass, whole: bool) -> Result<(), Said> {
        self.add(machine.open_pass(pass)?);
        // As many turns as nodes are enough, since a slice walks one at least.
        for _ in 0..self.left {
            if self.stops(whole) {
                break;
            }
            self.next(machine)?;
        }
        if whole { closed(machine) } else { Ok(()) }
    }

    // A slice, and then a read of an adjoint, which is to be answered while the walk is open.
    fn next(&mut self, machine: &mut Machine<'_>) -> Result<(), Said> {
        let size = self.size();
        let left = self.left.saturating_sub(size);
        self.add(machine.take_slice(size)?);
        self.slices = self.slices.saturating_add(1);
        self.draws = stirred(self.draws);
        if self.left != left {
            return Err(Said::Left(self.left));
        }
        machine.adjoint(Operand::Node(machine.first_node()))?;
        Ok(())
    }

    fn add(&mut self, sliced: Sliced) {
        self.visited = self.visited.saturating_add(u64::from(sliced.visited));
        self.left = sliced.left;
    }

    fn stops(&self, whole: bool) -> bool {
        let is_last = self.size() >= self.left;
        self.left == 0 || is_last && !whole
    }

    // The size of the next slice.
    fn size(&self) -> usize {
        if self.draws / SMALL % SELDOM == 0 {
            return MOST_NODES;
        }
        (1 + self.draws % SMALL) as usize
    }
}

// That the walk is over: a further slice has to be refused.
fn closed(machine: &mut Machine<'_>) -> Result<(), Said> {
    match machine.take_slice(1) {
        Ok(sliced) => Err(Said::Left(sliced.left)),
        Err(Refusal::OutOfTurn) => Ok(()),
        Err(refusal) => Err(Said::Refused(refusal)),
    }
}
