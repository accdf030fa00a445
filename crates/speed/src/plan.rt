// What is recorded: operations 1 to 7 mixed, in blocks of 16 nodes behind 15 leaves. A block's last node adds its
// result to the sum of the blocks before it, so that the last adjoint reaches every block. No operation makes a large
// number or a small one, and a block is short, so that nothing overflows on the way down.
ghost use Rattle.std.specs.Prelude.{◌≤◌, ◌<◌};

use expr::{ADD, DIVIDE, LEAF, MAX, MIN, MULTIPLY, NEGATE, SUBTRACT};
use listing::float_of;
use std::fmt;

pub const NODES: usize = tape::MOST_NODES;

// As many places as 16 bits have, one more than there are nodes.
pub const PLACES: usize = NODES + 1;

const BLOCK: u16 = 16;

// The nodes before the first block: leaves, of which the last begins the sum.
const LEAVES: u16 = BLOCK - 1;

pub const SEED: u64 = 0x9e37_79b9_7f4a_7c15;

// Below 2^16 this gives the same number in each of the four parts of a draw.
const IN_EACH_PART: u64 = 0x0001_0001_0001_0001;

// Where operands lie: anywhere in the node's own block, anywhere below the node, or next before it. Or there are none,
// and each node is a leaf, a drawn number.
#[derive(Clone, Copy, PartialEq, Eq)]
pub enum Reach {
    Near,
    Anywhere,
    Regular,
    Leaves,
}

// A node to be recorded: the number of its operation, as `record` takes it, the places of its operands, and the plain
// number that stands for an operand with no place.
#[derive(Clone, Copy)]
pub struct Recording {
    pub op: u8,
    pub left: Option<u16>,
    pub right: Option<u16>,
    pub plain: f64,
}

// Plans every node.
pub(crate) fn lay_out(reach: Reach, plan: &mut [Recording; NODES]) {
    let mut values = [0.0; PLACES];
    let mut draw = SEED;
    for (i, node) in plan.iter_mut().enumerate() {
        draw = next(draw);
        *node = planned(reach, i as u16, draw, &values);
        values[i] = node.result(&values);
    }
}

// The generator xorshift64. The programs replay and samples have the same; no crate that they share draws numbers.
pub(crate) fn next(x: u64) -> u64 {
    let a = x ^ x << 13;
    let b = a ^ a >> 7;
    b ^ b << 17
}

// One of the four parts of a draw, brought below an end.
fn part(draw: u64, shift: u32, end: u16) -> u16
    requires { (shift < 64) × (0 < end) }
    ensures { result < end }
{
    (draw >> shift & 0xffff) as u16 % end
}

fn planned(reach: Reach, i: u16, draw: u64, values: &[f64; PLACES]) -> Recording
    requires { i < NODES }
{
    let place = (i + 1) % BLOCK;
    let operation = match reach {
        Reach::Leaves => return Recording::leaf(float_of(draw)),
        _ if i < LEAVES => return Recording::leaf((16 + i) as f64 / 16.0),
        _ if place == LEAVES => return sum(i),
        Reach::Near => mixed(draw, near(i, place, draw, 0), near(i, place, draw, 16)),
        Reach::Anywhere => mixed(draw, part(draw, 0, i), part(draw, 16, i)),
        Reach::Regular => mixed(
            i as u64 * IN_EACH_PART,
            before(i, place, 1),
            before(i, place, 2),
        ),
    };
    operation.moderate(values)
}

fn sum(i: u16) -> Recording
    requires { 16 ≤ i }
{
    Recording {
        op: ADD,
        left: Some(i - BLOCK),
        right: Some(i - 1),
        plain: 0.0,
    }
}

// One right operand in four is plain.
fn mixed(draw: u64, left: u16, right: u16) -> Recording {
    let is_plain = part(draw, 32, 4) == 0;
    Recording {
        op: ADD + part(draw, 48, NEGATE as u16) as u8,
        left: Some(left),
        right: if is_plain { None } else { Some(right) },
        plain: (384 + part(draw, 40, 256)) as f64 / 256.0,
    }
}

// A node of the same block, or for a block's first node a leaf.
fn near(i: u16, place: u16, draw: u64, shift: u32) -> u16
    requires { (place ≤ i) × (shift < 64) }
{
    if place == 0 {
        return part(draw, shift, LEAVES);
    }
    i - 1 - part(draw, shift, place)
}

// The node so many before, or where that is in another block a leaf.
fn before(i: u16, place: u16, back: u16) -> u16
    requires { place ≤ i }
{
    if place < back {
        return i / BLOCK % LEAVES;
    }
    i - back
}

impl Recording {
    pub(crate) const fn leaf(plain: f64) -> Recording {
        Recording {
            op: LEAF,
            left: None,
            right: None,
            plain,
        }
    }

    // Negation in place of an operation whose result would be large or small, or of a maximum or minimum of equals,
    // whose left partial is not the Rust's.
    fn moderate(mut self, values: &[f64; PLACES]) -> Recording {
        let x = self.result(values);
        let is_tie = MAX <= self.op
            && self.value(self.left, values) == self.value(self.right, values);
        if is_tie || !is_moderate(x) && !is_moderate(0.0 - x) {
            self.op = NEGATE;
        }
        self
    }

    fn value(self, operand: Option<u16>, values: &[f64; PLACES]) -> f64 {
        operand.map_or(self.plain, |at| values[at as usize])
    }

    fn result(self, values: &[f64; PLACES]) -> f64 {
        let l = self.value(self.left, values);
        let r = self.value(self.right, values);
        match self.op {
            ADD => l + r,
            SUBTRACT => l - r,
            MULTIPLY => l * r,
            DIVIDE => l / r,
            MAX => if l >= r { l } else { r },
            MIN => if l <= r { l } else { r },
            NEGATE => 0.0 - l,
            _ => l,
        }
    }
}

fn is_moderate(x: f64) -> bool {
    (1.0 / 64.0..=64.0).contains(&x)
}

impl fmt::Display for Reach {
    fn fmt<W: fmt::Write>(&self, f: &mut fmt::Formatter<W>) -> fmt::Result {
        f.write_str(match self {
            Reach::Near => "near",
            Reach::Anywhere => "anywhere",
            Reach::Regular => "regular",
            Reach::Leaves => "listing",
        })
    }
}
