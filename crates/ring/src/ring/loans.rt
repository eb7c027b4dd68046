// The memory lent to a ring, and the span handed back.
// The clause `same` tells a ring's loan before a call from that after it, so that no invariant of one ring can hold it.
ghost use Rattle.std.specs.Prelude.{◌≡◌};

use super::Ring;
use crate::span::Span;

impl<'a, T: Copy> Ring<'a, T> {
    // The ring that a span marks in a memory.
    pub fn over(memory: &'a mut [T], span: Span) -> Ring<'a, T>
        ensures numbers { result.span ≡ span }
        ensures memory { result.memory.now ≡ memory.old }
        ensures same { result.memory.ghost_name ≡ memory.entry.ghost_name }
    {
        Ring { memory, span }
    }

    // The span, for its owner to keep.
    pub fn span(&self) -> Span
        ensures { result ≡ self.now.span }
    {
        self.span
    }
}
