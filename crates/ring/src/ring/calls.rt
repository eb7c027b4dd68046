// What can be done with a ring. Where the memory is not as long as the span says, nothing is.
ghost use Rattle.std.specs.Prelude.{◌≡◌};
ghost use Rattle.ring.specs.Rings.{Adds, GivesUp, Reads};

use super::Ring;
use crate::does_not_fit::DoesNotFit;

impl<T: Copy> Ring<'_, T> {
    // Adds an element at the newest end, unless the ring is full.
    pub fn add(&mut self, x: T) -> Result<(), DoesNotFit>
        ensures answer { Adds result self.old.span self.old.memory.now x self.new.span self.new.memory.now }
        ensures same { self.new.memory.ghost_name ≡ self.old.memory.ghost_name }
    {
        if !self.span.fits(self.memory.len()) {
            return Err(DoesNotFit);
        }
        let place = self.span.next();
        self.span.take_in(1)?;
        self.memory[place as usize] = x;
        Ok(())
    }

    // Reads the oldest element.
    pub fn oldest(&self) -> Option<T>
        ensures { Reads result self.now.span self.now.memory.now }
    {
        self.span.element(self.memory, 0)
    }

    // Removes the oldest element and answers it. Its place is free then, and the memory as it was.
    pub fn give_up(&mut self) -> Option<T>
        ensures answer { GivesUp result self.old.span self.old.memory.now self.new.span }
        ensures memory { self.new.memory.now ≡ self.old.memory.now }
        ensures same { self.new.memory.ghost_name ≡ self.old.memory.ghost_name }
    {
        let x = self.oldest()?;
        self.span.free(1).unwrap();
        Some(x)
    }
}
