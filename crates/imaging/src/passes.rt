// Passes in slices, and what they came to.

// The nodes of a slice, where passes are cut into slices; how many slices there were so far, and how many nodes lay at
// most between two services of the reader's motor.
#[derive(Clone, Copy)]
pub struct Passes {
    pub slice: Option<usize>,
    pub slices: usize,
    pub most: usize,
}

impl Passes {
    // Before the first pass.
    pub(crate) fn none(slice: Option<usize>) -> Passes {
        Passes {
            slice,
            slices: 0,
            most: 0,
        }
    }

    pub(crate) fn count_slice(&mut self, nodes: usize) {
        self.slices = self.slices.saturating_add(1);
        self.most = self.most.max(nodes);
    }
}
