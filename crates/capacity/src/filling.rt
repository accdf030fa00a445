// Leaves asked for one after another, as many as the arrays have entries, and what their answers come to.
use crate::lent::Lent;
use expr::Recorded;
use tape::{Handle, MOST_NODES};

// One entry more than a tape can have.
pub const TOO_MANY: usize = MOST_NODES + 1;

#[derive(Clone, Copy)]
pub struct Filled {
    pub first: Option<Handle>,
    pub last: Option<Handle>,
    // How many leaves, from the first on, were recorded each in its own place with its own serial and value.
    pub in_order: usize,
}

// Arrays have TOO_MANY entries at most, and so many numbers fit 16 bits.
pub(crate) fn fill(lent: &mut Lent<'_>) -> Filled {
    let mut filled = Filled {
        first: None,
        last: None,
        in_order: 0,
    };
    let leaves = lent.capacity();
    for i in (0..=u16::MAX).take(leaves) {
        if let Ok(leaf) = lent.leaf(f64::from(i)) {
            filled = filled.with(leaf, i);
        }
    }
    filled
}

impl Filled {
    // With the leaf that comes after i others, of value i.
    fn with(self, leaf: Recorded, i: u16) -> Filled {
        let place = usize::from(i);
        let own = Handle {
            index: place,
            serial: u64::from(i) + 1,
        };
        let is_next = (self.in_order == place)
            & (leaf.handle == Some(own))
            & (leaf.value == f64::from(i));
        Filled {
            first: self.first.or(leaf.handle),
            last: leaf.handle.or(self.last),
            in_order: if is_next { place + 1 } else { self.in_order },
        }
    }
}
