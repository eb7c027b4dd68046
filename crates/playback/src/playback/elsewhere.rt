// Calls of a playback stream that are given memory of another length, each refused by 3 with nothing changed.
// One function for each call: with a closure that is handed the other memory, a caller's proof does not see what the closure
// did to the stream.
ghost use Rattle.std.specs.Prelude.{◌≡◌, Err};
ghost use Rattle.codes.specs.declared.refusal.Refusal.TheVariants.{Memory};
ghost use Rattle.playback.specs.PlaybackBook.{book_of};

use super::Playback;
use calls::answer::{Answer, Outcome};
use calls::elsewhere::another_length;
use calls::entry::Entry;
use calls::lease_parts::LeaseParts;
use frames::frame::Frame;
use sinks::sink::Sink;

impl Playback {
    pub(crate) fn put_elsewhere(
        &self,
        spare: &mut [Frame],
        parts: LeaseParts,
        position: u32,
        frames: &[Frame],
    ) -> Answer
        ensures answer { result ≡ Err Memory }
        ensures same { spare.new ≡ spare.old }
    {
        let n = another_length(spare.len(), self.geometry.buffer());
        self.put_by_parts(&mut spare[..n], parts, position, frames)
            .map(Outcome::from)
    }

    pub(crate) fn mix_elsewhere(
        &self,
        spare: &mut [Frame],
        parts: LeaseParts,
        position: u32,
        frames: &[Frame],
    ) -> Answer
        ensures answer { result ≡ Err Memory }
        ensures same { spare.new ≡ spare.old }
    {
        let n = another_length(spare.len(), self.geometry.buffer());
        self.mix_by_parts(&mut spare[..n], parts, position, frames)
            .map(Outcome::from)
    }

    pub(crate) fn drop_elsewhere(&mut self, spare: &mut [Entry]) -> Answer
        ensures answer { result ≡ Err Memory }
        ensures stream { book_of self.new ≡ book_of self.old }
        ensures same { spare.new ≡ spare.old }
    {
        let n = another_length(spare.len(), self.geometry.ledger());
        self.drop(&mut spare[..n]).map(Outcome::from)
    }

    pub(crate) fn prepare_elsewhere<S: Sink>(&mut self, sink: &mut S, spare: &mut [Entry]) -> Answer
        ensures answer { result ≡ Err Memory }
        ensures stream { book_of self.new ≡ book_of self.old }
        ensures sink { sink.new ≡ sink.old }
        ensures same { spare.new ≡ spare.old }
    {
        let n = another_length(spare.len(), self.geometry.ledger());
        self.prepare(sink, &mut spare[..n]).map(Outcome::from)
    }

    pub(crate) fn take_elsewhere(&mut self, spare: &mut [Entry]) -> Answer
        ensures answer { result ≡ Err Memory }
        ensures stream { book_of self.new ≡ book_of self.old }
        ensures same { spare.new ≡ spare.old }
    {
        let n = another_length(spare.len(), self.geometry.ledger());
        self.take(&mut spare[..n]).map(Outcome::from)
    }

    // Another ledger; below, another frame memory, and perhaps another ledger too.
    pub(crate) fn tick_with_ledger_elsewhere<S: Sink>(
        &mut self,
        sink: &mut S,
        memory: &[Frame],
        spare: &mut [Entry],
        k: u32,
    ) -> Answer
        ensures answer { result ≡ Err Memory }
        ensures stream { book_of self.new ≡ book_of self.old }
        ensures sink { sink.new ≡ sink.old }
        ensures same { spare.new ≡ spare.old }
    {
        let n = another_length(spare.len(), self.geometry.ledger());
        self.tick(sink, memory, &mut spare[..n], k)
            .map(Outcome::from)
    }

    pub(crate) fn tick_with_frames_elsewhere<S: Sink>(
        &mut self,
        sink: &mut S,
        spare: &[Frame],
        ledger: &mut [Entry],
        k: u32,
    ) -> Answer
        ensures answer { result ≡ Err Memory }
        ensures stream { book_of self.new ≡ book_of self.old }
        ensures sink { sink.new ≡ sink.old }
        ensures same { ledger.new ≡ ledger.old }
    {
        let n = another_length(spare.len(), self.geometry.buffer());
        self.tick(sink, &spare[..n], ledger, k).map(Outcome::from)
    }
}
