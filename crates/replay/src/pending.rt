// The bytes of a case that is not ended, in the first places of a lent buffer: there is no heap, and an ArrayVec of so
// many, which is moved when it is made, runs out of stack.
ghost use Rattle.std.specs.Prelude.{◌≤◌, length};

#[derive(Drop)]
pub struct Pending<'a> {
    buffer: &'a mut [u8],
    count: usize,
    ghost within: { count ≤ length buffer.now },
}

impl<'a> Pending<'a> {
    pub(crate) fn new(buffer: &'a mut [u8]) -> Pending<'a> {
        Pending { buffer, count: 0 }
    }

    pub(crate) fn bytes(&self) -> &[u8] {
        &self.buffer[..self.count]
    }

    pub(crate) fn is_empty(&self) -> bool {
        self.count == 0
    }

    // Past the buffer's end a case is cut.
    pub(crate) fn push(&mut self, byte: u8) {
        let at = self.count;
        if at < self.buffer.len() {
            self.buffer[at] = byte;
            self.count = at + 1;
        }
    }

    pub(crate) fn clear(&mut self) {
        self.count = 0;
    }
}
