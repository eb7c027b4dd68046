// A new span, and the numbers that can be read of one.
ghost use Rattle.std.specs.Prelude.{◌≡◌, ◌<◌, ◌≤◌, MatchOption};
ghost use Rattle.ring.specs.Spans.{Has};

use super::Span;

impl Span {
    // The span of an empty ring, unless it has no place at all.
    pub fn new(size: u32) -> Option<Span>
        ensures { MatchOption result (size ≡ 0) (λ s. (0 < size) × Has s size 0 0) }
    {
        if size == 0 {
            return None;
        }
        Some(Span {
            size,
            oldest: 0,
            count: 0,
        })
    }

    pub fn size(&self) -> u32
        ensures answer { result ≡ self.now.size }
        ensures rule { 0 < result }
    {
        self.size
    }

    // The place of the oldest element, or of the next one where the ring is empty.
    pub fn oldest(&self) -> u32
        ensures answer { result ≡ self.now.oldest }
        ensures rule { result < self.now.size }
    {
        self.oldest
    }

    pub fn count(&self) -> u32
        ensures answer { result ≡ self.now.count }
        ensures rule { result ≤ self.now.size }
    {
        self.count
    }
}
