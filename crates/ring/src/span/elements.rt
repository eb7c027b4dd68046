// The elements of a ring, read by their order.
ghost use Rattle.std.specs.Prelude.{◌≡◌, ◌<◌, ◌↔◌, IsTrue, length, slice_index_or};
ghost use Rattle.ring.specs.Rings.{ReadsAt};

use super::Span;

impl Span {
    // Whether a memory of a length is as long as the span says.
    pub(crate) fn fits(&self, length: usize) -> bool
        ensures { IsTrue result ↔ (length ≡ self.now.size) }
    {
        length == self.size as usize
    }

    // The i-th element held; the oldest is 0.
    pub fn element<T: Copy>(&self, memory: &[T], i: u32) -> Option<T>
        ensures { ReadsAt result self.now memory.now i }
    {
        if !self.fits(memory.len()) {
            return None;
        }
        if i >= self.count {
            return None;
        }
        Some(memory[self.past(i) as usize])
    }
}
