// One call of a playback stream, given as data.
ghost use Rattle.std.specs.Prelude.{◌≡◌};
ghost use Rattle.account.specs.PlaybackHistory.{Step};
ghost use Rattle.calls.specs.Spares.{IsSpared};
ghost use Rattle.playback.specs.Situations.{situation_of, SameLoans};

use super::Situation;
use crate::lease::{Lease, Seal};
use calls::answer::{Answer, Outcome};
use calls::call::{Given, PlaybackCall};
use calls::elsewhere::Spare;
use calls::lease::tell_lease;
use sinks::sink::Sink;

impl<S: Sink> Situation<'_, '_, '_, '_, S> {
    // A call that asks for another memory is given a part of the spare one. Calls are data from outside, so a match says which
    // method each runs; a table of closures would hold the same lines, and a trait over both streams more.
    pub(crate) fn step(&mut self, spare: &mut Spare<'_, '_>, call: PlaybackCall<'_>) -> Answer
        ensures rule { Step S.Sink.shows (situation_of self.old) call.entry result (situation_of self.new) }
        ensures same { SameLoans self.old self.new }
        ensures spared { IsSpared spare.old spare.new }
    {
        // The check does not see through a field behind two references, so each is borrowed by itself.
        let stream = &mut *self.stream;
        let sink = &mut *self.sink;
        let memory = &mut *self.memory;
        let ledger = &mut *self.ledger;
        let spare_ledger = &mut *spare.ledger;
        let spare = &mut *spare.frames;
        match call {
            PlaybackCall::Begin(wanted) => tell_lease(stream.begin(wanted), Seal(())),
            PlaybackCall::Put(Given::Own, l, j, fs) => stream
                .put_by_parts(memory, l, j, fs)
                .map(Outcome::from),
            PlaybackCall::Put(Given::Another, l, j, fs) => stream.put_elsewhere(spare, l, j, fs),
            PlaybackCall::Mix(Given::Own, l, j, fs) => stream
                .mix_by_parts(memory, l, j, fs)
                .map(Outcome::from),
            PlaybackCall::Mix(Given::Another, l, j, fs) => stream.mix_elsewhere(spare, l, j, fs),
            PlaybackCall::Commit(l, n) => stream
                .commit(Lease::new(l, Seal(())), n)
                .map(Outcome::from),
            PlaybackCall::Start => stream.start().map(Outcome::from),
            PlaybackCall::Tick(Given::Own, Given::Own, k) => stream
                .tick(sink, memory, ledger, k)
                .map(Outcome::from),
            PlaybackCall::Tick(Given::Own, Given::Another, k) => stream.tick_with_ledger_elsewhere(
                sink,
                memory,
                spare_ledger,
                k,
            ),
            PlaybackCall::Tick(Given::Another, Given::Own, k) => stream.tick_with_frames_elsewhere(
                sink, spare, ledger, k,
            ),
            PlaybackCall::Tick(Given::Another, Given::Another, k) =>
                stream.tick_with_frames_elsewhere(sink, spare, spare_ledger, k),
            PlaybackCall::Pause => stream.pause().map(Outcome::from),
            PlaybackCall::Resume => stream.resume().map(Outcome::from),
            PlaybackCall::Drain => stream.drain().map(Outcome::from),
            PlaybackCall::Drop(Given::Own) => stream.drop(ledger).map(Outcome::from),
            PlaybackCall::Drop(Given::Another) => stream.drop_elsewhere(spare_ledger),
            PlaybackCall::Prepare(Given::Own) => stream.prepare(sink, ledger).map(Outcome::from),
            PlaybackCall::Prepare(Given::Another) => stream.prepare_elsewhere(sink, spare_ledger),
            PlaybackCall::Take(Given::Own) => stream.take(ledger).map(Outcome::from),
            PlaybackCall::Take(Given::Another) => stream.take_elsewhere(spare_ledger),
        }
    }
}
