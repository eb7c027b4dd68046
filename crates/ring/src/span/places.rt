// Places of a ring, reckoned from its span. They wrap once at most, so that no division is needed.
ghost use Rattle.std.specs.Prelude.{◌≡◌, ◌+◌, ◌-◌, ◌%◌, ◌<◌, ◌≤◌, ◌==◌};
ghost use Rattle.ring.specs.Spans.{next_of};

use super::Span;

impl Span {
    // The place n after the oldest.
    pub(crate) fn past(&self, n: u32) -> u32
        requires { n ≤ self.now.size }
        ensures answer { result ≡ (self.now.oldest + n) % self.now.size }
        ensures rule { result < self.now.size }
    {
        let left = self.size - self.oldest;
        if n < left { self.oldest + n } else { n - left }
    }

    // The place where the next element goes.
    pub fn next(&self) -> u32
        ensures answer { result ≡ next_of self.now }
        ensures rule { result < self.now.size }
    {
        self.past(self.count)
    }

    pub fn is_full(&self) -> bool
        ensures { result ≡ (self.now.count == self.now.size) }
    {
        self.count == self.size
    }

    // The longest unbroken area from a place, or 0 beyond.
    pub fn area_from(&self, place: u32) -> u32
        ensures { result ≡ self.now.size - place }
    {
        self.size.saturating_sub(place)
    }
}
