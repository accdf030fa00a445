// Arrays for three nodes, of which a tape of two leaves one free, and whether they hold what they held.
use crate::lent::Lent;
use listing::bits_of;
use tape::{MOST_EDGES, NodesMut, Tape};

// The capacity.
pub const N: usize = 3;

pub const SLOTS: usize = MOST_EDGES * N;

// As a tape is lent them. The edges' arrays are twice as long, which no const parameter can say.
#[derive(Clone, Copy)]
pub struct Arrays {
    pub value: [f64; N],
    pub adjoint: [f64; N],
    pub serial: [u64; N],
    pub count: [u8; N],
    pub child: [u16; SLOTS],
    pub partial: [f64; SLOTS],
}

impl Arrays {
    // The second node has two edges, both to the first.
    pub const FILLED: Arrays = Arrays {
        value: [3.0; N],
        adjoint: [0.5; N],
        serial: [7; N],
        count: [0, 2, 0],
        child: [0; SLOTS],
        partial: [0.7; SLOTS],
    };

    pub(crate) fn lend(&mut self, tape: Tape) -> Lent<'_> {
        let Arrays {
            value,
            adjoint,
            serial,
            count,
            child,
            partial,
        } = self;
        let nodes = NodesMut {
            value,
            serial,
            count,
            child,
            partial,
        };
        Lent {
            tape,
            nodes,
            adjoint,
        }
    }

    pub(crate) fn is_same(&self, other: &Arrays) -> bool {
        self.has_adjoints_of(other)
            & is_same(&self.value, &other.value)
            & (self.serial == other.serial)
            & (self.count == other.count)
            & (self.child == other.child)
            & is_same(&self.partial, &other.partial)
    }

    pub(crate) fn has_adjoints_of(&self, other: &Arrays) -> bool {
        is_same(&self.adjoint, &other.adjoint)
    }
}

// Two nodes, as two leaves leave them.
pub(crate) fn two_nodes() -> Tape {
    with_next(3, true)
}

pub(crate) fn with_next(next: u64, active: bool) -> Tape {
    Tape {
        length: 2,
        active,
        next,
        ..Tape::new()
    }
}

// By their bits: a sign or a NaN would not show otherwise.
pub(crate) fn is_same(x: &[f64], y: &[f64]) -> bool {
    (x.len() == y.len()) & x.iter().zip(y).all(|(x, y)| bits_of(*x) == bits_of(*y))
}
