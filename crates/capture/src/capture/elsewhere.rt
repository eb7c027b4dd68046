// Calls of a capture stream that are given memory of another length, each refused by 3 with nothing changed.
// One function for each call: with a closure that is handed the other memory, a caller's proof does not see what the closure
// did to the stream.
ghost use Rattle.std.specs.Prelude.{◌≡◌, Err};
ghost use Rattle.codes.specs.declared.refusal.Refusal.TheVariants.{Memory};
ghost use Rattle.capture.specs.CaptureBook.{book_of};

use super::Capture;
use calls::answer::{Answer, Outcome};
use calls::elsewhere::another_length;
use calls::entry::Entry;
use frames::frame::Frame;
use sources::source::Source;

impl Capture {
    pub(crate) fn drop_elsewhere(&mut self, spare: &mut [Entry]) -> Answer
        ensures answer { result ≡ Err Memory }
        ensures stream { book_of self.new ≡ book_of self.old }
        ensures same { spare.new ≡ spare.old }
    {
        let n = another_length(spare.len(), self.geometry.ledger());
        self.drop(&mut spare[..n]).map(Outcome::from)
    }

    pub(crate) fn prepare_elsewhere(&mut self, spare: &mut [Entry]) -> Answer
        ensures answer { result ≡ Err Memory }
        ensures stream { book_of self.new ≡ book_of self.old }
        ensures same { spare.new ≡ spare.old }
    {
        let n = another_length(spare.len(), self.geometry.ledger());
        self.prepare(&mut spare[..n]).map(Outcome::from)
    }

    pub(crate) fn take_elsewhere(&mut self, spare: &mut [Entry]) -> Answer
        ensures answer { result ≡ Err Memory }
        ensures stream { book_of self.new ≡ book_of self.old }
        ensures same { spare.new ≡ spare.old }
    {
        let n = another_length(spare.len(), self.geometry.ledger());
        self.take(&mut spare[..n]).map(Outcome::from)
    }

    // Another ledger; below, another frame memory, and perhaps another ledger too.
    pub(crate) fn tick_with_ledger_elsewhere<R: Source>(
        &mut self,
        source: &mut R,
        memory: &mut [Frame],
        spare: &mut [Entry],
        k: u32,
    ) -> Answer
        ensures answer { result ≡ Err Memory }
        ensures stream { book_of self.new ≡ book_of self.old }
        ensures source { source.new ≡ source.old }
        ensures memory { memory.new ≡ memory.old }
        ensures same { spare.new ≡ spare.old }
    {
        let n = another_length(spare.len(), self.geometry.ledger());
        self.tick(source, memory, &mut spare[..n], k)
            .map(Outcome::from)
    }

    pub(crate) fn tick_with_frames_elsewhere<R: Source>(
        &mut self,
        source: &mut R,
        spare: &mut [Frame],
        ledger: &mut [Entry],
        k: u32,
    ) -> Answer
        ensures answer { result ≡ Err Memory }
        ensures stream { book_of self.new ≡ book_of self.old }
        ensures source { source.new ≡ source.old }
        ensures ledger { ledger.new ≡ ledger.old }
        ensures same { spare.new ≡ spare.old }
    {
        let n = another_length(spare.len(), self.geometry.buffer());
        self.tick(source, &mut spare[..n], ledger, k)
            .map(Outcome::from)
    }
}
