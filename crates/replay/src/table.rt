// A line of the operations table, recorded by the port and compared: the value, the edges and their partials.
use crate::kinds::{Kind, NAMES};
use crate::list::List;
use crate::machine::{NO_CHILD, UNLIKELY};
use crate::nodes::{Edge, Given, Node};
use crate::said::Refused;
use crate::tally::Aside;
use crate::words::{NAN, named, split_word};
use crate::{nodes, words};
use expr::Supplied;
use listing::float_of;
use tape::{MOST_EDGES, Refusal};

const ZERO: u64 = 0;

const ONE: u64 = 0x3ff0_0000_0000_0000;

// A case as its line has it: the operation, the operands, what is supplied and the node that the Rust recorded. A single
// operand has a number beside it that must not matter.
#[derive(Clone, Copy)]
struct Case {
    kind: Kind,
    op: u8,
    left: Given,
    right: Given,
    supplied: Supplied,
    node: Node,
}

// Records the line's operation, reports a difference or that the line is no case, and counts it.
pub(crate) fn replay<R: Print>(list: &mut List<'_, R>, line: &[u8]) {
    list.tally.next_line();
    let Some(case) = Case::read(line) else {
        list.malformed();
        return;
    };
    let got = nodes::carry_out(case.op, case.left, case.right, case.supplied);
    let aside = case.aside();
    let agrees = match got {
        Ok(Some(node)) => is_same(node, case.by_the_rule(aside), aside),
        _ => false,
    };
    if !agrees {
        report(list, line, got);
    }
    list.tally.next_case(case.kind as usize, agrees, aside);
}

fn report<R: Print>(list: &List<'_, R>, line: &[u8], got: Result<Option<Node>, Refusal>) {
    match got {
        Ok(Some(node)) => list.difference(line, &node),
        Ok(None) => list.difference(line, &" no node"),
        Err(refusal) => list.difference(line, &Refused(refusal)),
    }
}

impl Case {
    // A letter for each operand, n for one on the tape and p for a plain number, and then the words.
    fn read(line: &[u8]) -> Option<Case> {
        let (name, rest) = split_word(line);
        let kind = named(&NAMES, name)?;
        let op = kind.operation()?;
        let (_, form) = rest.split_first()?;
        let (letters, text) = form.split_at_checked(kind.operands())?;
        let (left, right) = on_tape(letters)?;
        let mut words: words::Case = [0; 48];
        let count = words::read_words(text, &mut words)?;
        let at = kind.operands() + kind.supplied();
        let partials = count.checked_sub(at + 1)?;
        if partials > MOST_EDGES {
            return None;
        }
        Some(Case {
            kind,
            op,
            left: Given {
                on_tape: left,
                bits: words[0],
            },
            right: Given {
                on_tape: right,
                bits: words[1],
            },
            supplied: supplied(kind, &words),
            node: Node {
                value: words[at],
                count: partials as u8,
                edges: [
                    edge(left || right, 0, words[at + 1]),
                    edge(left && right, 1, words[at + 2]),
                ],
            },
        })
    }

    // Where the Rust departs from the rule, or may (docs/DIFFERENCES.md): the value of max and min where the right
    // operand alone is a NaN, and at two zeros of unlike sign, which are equal with unlike bits; the partials at every
    // tie.
    fn aside(self) -> Aside {
        let left = self.left.bits;
        let right = self.right.bits;
        let right_alone = right == NAN && left != NAN;
        let tie = float_of(left) == float_of(right);
        Aside {
            value: self.kind.chooses() && (right_alone || tie && left != right),
            partials: self.kind.chooses() && tie,
        }
    }

    // The node as it has to be: with the partials of the line or, at a tie, with 1 for the left operand and 0 for the
    // right. The first edge is the left operand's where that is on the tape.
    fn by_the_rule(self, aside: Aside) -> Node {
        let mut node = self.node;
        if aside.partials {
            node.edges[0].partial = if self.left.on_tape { ONE } else { ZERO };
            node.edges[1].partial = ZERO;
        }
        node
    }
}

// Whether the left operand is on the tape, and whether a right one is.
fn on_tape(letters: &[u8]) -> Option<(bool, bool)> {
    match letters {
        [single] => Some((is_on_tape(*single)?, false)),
        [left, right] => Some((is_on_tape(*left)?, is_on_tape(*right)?)),
        _ => None,
    }
}

fn is_on_tape(letter: u8) -> Option<bool> {
    match letter {
        b'n' => Some(true),
        b'p' => Some(false),
        _ => None,
    }
}

// What is supplied, of which a line has the first words. An operation has to leave the others alone.
fn supplied(kind: Kind, words: &words::Case) -> Supplied {
    let from = kind.operands();
    let count = kind.supplied();
    let float = |i: usize| {
        if i < count {
            float_of(words[from + i])
        } else {
            UNLIKELY
        }
    };
    Supplied {
        value: float(0),
        left: float(1),
        right: float(2),
    }
}

// An operand on the tape has the index at which it stands there, the left before the right.
fn edge(there: bool, index: u16, partial: u64) -> Edge {
    Edge {
        child: if there { index } else { NO_CHILD },
        partial,
    }
}

// Whether the port recorded the node, but for its value where that is left out.
fn is_same(node: Node, wanted: Node, aside: Aside) -> bool {
    let edges = usize::from(wanted.count);
    (aside.value || node.value == wanted.value)
        && node.count == wanted.count
        && node
            .edges
            .iter()
            .take(edges)
            .eq(wanted.edges.iter().take(edges))
}
