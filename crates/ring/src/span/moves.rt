// What moves a span. Where a move does not fit, nothing has changed.
ghost use Rattle.std.specs.Prelude.{◌≡◌, ◌+◌, ◌<◌, ◌≤◌, IsOk};
ghost use Rattle.ring.specs.Moves.{Frees, SetsTo, TakesIn};

use super::Span;
use crate::does_not_fit::DoesNotFit;

impl Span {
    // Gives up the n oldest at once, unless there are fewer.
    pub fn free(&mut self, n: u32) -> Result<(), DoesNotFit>
        ensures answer { Frees result self.old n self.new }
        ensures held { n ≤ self.old.count → IsOk result }
    {
        if n > self.count {
            return Err(DoesNotFit);
        }
        self.oldest = self.past(n);
        self.count -= n;
        Ok(())
    }

    // Takes in the n places after the newest, unless fewer are free. They were written before.
    pub fn take_in(&mut self, n: u32) -> Result<(), DoesNotFit>
        ensures answer { TakesIn result self.old n self.new }
        ensures room { self.old.count + n ≤ self.old.size → IsOk result }
    {
        if n > self.size - self.count {
            return Err(DoesNotFit);
        }
        self.count += n;
        Ok(())
    }

    // Sets an empty ring to a place.
    pub fn set_to(&mut self, place: u32) -> Result<(), DoesNotFit>
        ensures answer { SetsTo result self.old place self.new }
        ensures empty { self.old.count ≡ 0 → place < self.old.size → IsOk result }
    {
        if self.count > 0 || place >= self.size {
            return Err(DoesNotFit);
        }
        self.oldest = place;
        Ok(())
    }
}
