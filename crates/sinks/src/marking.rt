// The check of marks, and the count of frames up to the next one.
ghost use Rattle.std.specs.Prelude.{◌≡◌, ◌<◌, ◌≤◌, false, if◌then◌else◌, Some, None};
ghost use Rattle.sinks.specs.Marks.{CheckedMarks, Counted, Lifted, capped, stands_at, is_left, next_mark};

use crate::marks::Marks;
use codes::refusal::Refusal;

impl Marks {
    // Named `check` as every test of numbers handed in, and no TryFrom.
    pub fn check(list: &[u32]) -> Result<Marks, Refusal>
        ensures { CheckedMarks list.now result }
    {
        if list.len() > 16 || !list.is_sorted_by(|a, b| a < b) {
            return Err(Refusal::Layer);
        }
        let mut at = [0; 16];
        at[..list.len()].copy_from_slice(list);
        Ok(Marks {
            at,
            next: 0,
            end: list.len(),
            taken: 0,
        })
    }

    // The next mark, if one is left.
    fn next_mark(&self) -> Option<u32>
        ensures { result ≡ (if is_left self.now then Some (next_mark self.now) else None) }
    {
        self.at[..self.end].get(self.next).copied()
    }

    // Whether the frames taken have come to the next mark.
    pub fn stands(&self) -> bool
        ensures { result ≡ stands_at self.now }
    {
        self.next_mark() == Some(self.taken)
    }

    // The lesser of an allowance and the frames up to the next mark.
    pub fn cap(&self, allowance: u32) -> u32
        ensures { result ≡ capped self.now allowance }
    {
        match self.next_mark() {
            Some(mark) => allowance.min(mark - self.taken),
            None => allowance,
        }
    }

    // One frame more was taken. At a mark that still stands in the way nothing is taken, and nothing counted.
    pub(crate) fn count(&mut self)
        requires { stands_at self.old ≡ false }
        ensures { Counted self.old self.new }
    {
        if self.next_mark().is_some() {
            self.taken += 1;
        }
    }

    // Removes the mark at which it stands, if it stands at one.
    pub fn lift(&mut self)
        ensures { Lifted self.old self.new }
    {
        if self.stands() {
            self.next += 1;
        }
    }
}
