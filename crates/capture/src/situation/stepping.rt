// One call of a capture stream, given as data.
ghost use Rattle.account.specs.CaptureHistory.{Step};
ghost use Rattle.calls.specs.Spares.{IsSpared};
ghost use Rattle.capture.specs.Situations.{situation_of, SameLoans};

use super::Situation;
use crate::lease::{Lease, Seal};
use calls::answer::{Answer, Outcome};
use calls::call::{CaptureCall, Given};
use calls::elsewhere::Spare;
use calls::lease::tell_lease;
use sources::source::Source;

impl<R: Source> Situation<'_, '_, '_, '_, '_, R> {
    // A call that asks for another memory is given a part of the spare one. Calls are data from outside, so a match says which
    // method each runs; a table of closures would hold the same lines, and a trait over both streams more.
    pub(crate) fn step(&mut self, spare: &mut Spare<'_, '_>, call: CaptureCall) -> Answer
        ensures rule { Step R.Source.shows (situation_of self.old) call result (situation_of self.new) }
        ensures same { SameLoans self.old self.new }
        ensures spared { IsSpared spare.old spare.new }
    {
        // The check does not see through a field behind two references, so each is borrowed by itself.
        let stream = &mut *self.stream;
        let source = &mut *self.source;
        let memory = &mut *self.memory;
        let ledger = &mut *self.ledger;
        let host = &mut *self.host;
        let spare_ledger = &mut *spare.ledger;
        let spare = &mut *spare.frames;
        match call {
            CaptureCall::Begin(wanted) => tell_lease(stream.begin(wanted), Seal(())),
            CaptureCall::Copy(given, l, j, x, n) => stream.copy_given(
                given, memory, spare, l, j, host, x, n,
            ),
            CaptureCall::Commit(l, n) => stream
                .commit(Lease::new(l, Seal(())), n)
                .map(Outcome::from),
            CaptureCall::Start => stream.start().map(Outcome::from),
            CaptureCall::Tick(Given::Own, Given::Own, k) => stream
                .tick(source, memory, ledger, k)
                .map(Outcome::from),
            CaptureCall::Tick(Given::Own, Given::Another, k) => stream.tick_with_ledger_elsewhere(
                source,
                memory,
                spare_ledger,
                k,
            ),
            CaptureCall::Tick(Given::Another, Given::Own, k) => stream.tick_with_frames_elsewhere(
                source, spare, ledger, k,
            ),
            CaptureCall::Tick(Given::Another, Given::Another, k) =>
                stream.tick_with_frames_elsewhere(source, spare, spare_ledger, k),
            CaptureCall::Pause => stream.pause().map(Outcome::from),
            CaptureCall::Resume => stream.resume().map(Outcome::from),
            CaptureCall::Drain => stream.drain().map(Outcome::from),
            CaptureCall::Drop(Given::Own) => stream.drop(ledger).map(Outcome::from),
            CaptureCall::Drop(Given::Another) => stream.drop_elsewhere(spare_ledger),
            CaptureCall::Prepare(Given::Own) => stream.prepare(ledger).map(Outcome::from),
            CaptureCall::Prepare(Given::Another) => stream.prepare_elsewhere(spare_ledger),
            CaptureCall::Take(Given::Own) => stream.take(ledger).map(Outcome::from),
            CaptureCall::Take(Given::Another) => stream.take_elsewhere(spare_ledger),
        }
    }
}
