// One call of a playback stream, tried as data, and the lease that is out after it.
// Both streams have this, each over its own situation: a trait would name the rule of each, and its impls would be as long.
ghost use Rattle.std.specs.Prelude.{◌≡◌};
ghost use Rattle.account.specs.PlaybackHistory.{Step};
ghost use Rattle.calls.specs.Spares.{IsSpared};
ghost use Rattle.calls.specs.Told.{handed};
ghost use Rattle.playback.specs.Situations.{situation_of, SameLoans};

use super::Situation;
use crate::lease::{Lease, Seal};
use calls::call::PlaybackCall;
use calls::elsewhere::Spare;
use calls::lease;
use sinks::sink::Sink;

pub type Tried = lease::Tried<Seal>;

impl<S: Sink> Situation<'_, '_, '_, '_, S> {
    // The lease that is out, in exchange for the one in hand, which is used up.
    pub fn exchange(&self, hand: Option<Lease>) -> Option<Lease>
        ensures { handed result ≡ self.now.stream.now.lending.out }
    {
        self.stream.exchange(hand)
    }

    // Tries a call that names leases by their parts. The lease in hand is used up, and the one that is out afterwards comes
    // back, so that it is not lost. A call that asks for memory of another length is given a part of the spare one.
    pub fn try_call(
        &mut self,
        spare: &mut Spare<'_, '_>,
        hand: Option<Lease>,
        call: PlaybackCall<'_>,
    ) -> Tried
        ensures rule { Step S.Sink.shows (situation_of self.old) call.entry result.answer (situation_of self.new) }
        ensures lease { handed result.lease ≡ self.new.stream.now.lending.out }
        ensures same { SameLoans self.old self.new }
        ensures spared { IsSpared spare.old spare.new }
    {
        let answer = self.step(spare, call);
        Tried {
            answer,
            lease: self.exchange(hand),
        }
    }
}
