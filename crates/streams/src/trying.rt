// Any calls of a playback stream and a capture stream, and what holds after them.
ghost use Rattle.std.specs.Prelude.{◌≡◌, min, [], length, take, drop};
ghost use Rattle.account.specs.Histories.{Ran};
ghost use Rattle.account.specs.Promise.{Step, GoesOn};
ghost use Rattle.calls.specs.Spares.{IsSpared};
ghost use Rattle.calls.specs.Told.{handed};
ghost use Rattle.streams.specs.Tables.{table_of, SameLoans};

use crate::table::Table;
use calls::answer::Answer;
use calls::call::Call;
use calls::elsewhere::Spare;
use capture::lease::Lease as CaptureLease;
use capture::situation::trying::Tried as CaptureTried;
use playback::lease::Lease as PlaybackLease;
use playback::situation::trying::Tried as PlaybackTried;
use sinks::sink::Sink;
use sources::source::Source;

// The leases in hand, one of each stream at most.
pub struct Hands {
    pub playback: Option<PlaybackLease>,
    pub capture: Option<CaptureLease>,
}

// How many calls were tried, and the leases that are out after them.
pub struct Tried {
    pub count: usize,
    pub hands: Hands,
}

// What one call answered, and the leases that are out after it.
struct Told {
    answer: Answer,
    hands: Hands,
}

impl<S: Sink, R: Source> Table<'_, '_, '_, '_, '_, '_, '_, '_, '_, S, R> {
    // The leases that are out, in exchange for those in hand, which are used up.
    pub fn exchange(&self, hands: Hands) -> Hands
        ensures playback { handed result.playback ≡ self.now.playback.stream.now.lending.out }
        ensures capture { handed result.capture ≡ self.now.capture.stream.now.lending.out }
    {
        let Hands { playback, capture } = hands;
        Hands {
            playback: self.playback.exchange(playback),
            capture: self.capture.exchange(capture),
        }
    }

    // One call of either stream, by its rule. Calls are data, so a match says whose it is.
    fn step(&mut self, spare: &mut Spare<'_, '_>, hands: Hands, call: Call<'_>) -> Told
        ensures rule { Step S.Sink.shows R.Source.shows (table_of self.old) call.entry result.answer (table_of self.new) }
        ensures leases { (handed result.hands.playback ≡ self.new.playback.stream.now.lending.out) × (handed result.hands.capture ≡ self.new.capture.stream.now.lending.out) }
        ensures same { SameLoans self.old self.new }
        ensures spared { IsSpared spare.old spare.new }
    {
        let Hands { playback, capture } = hands;
        match call {
            Call::Playback(c) => {
                let PlaybackTried { answer, lease } = self.playback.try_call(spare, playback, c);
                let capture = self.capture.exchange(capture);
                Told {
                    answer,
                    hands: Hands {
                        playback: lease,
                        capture,
                    },
                }
            }
            Call::Capture(c) => {
                let CaptureTried { answer, lease } = self.capture.try_call(spare, capture, c);
                let playback = self.playback.exchange(playback);
                Told {
                    answer,
                    hands: Hands {
                        playback,
                        capture: lease,
                    },
                }
            }
        }
    }

    // Tries the calls one after the other, as far as there is room for answers. The leases in hand are used up, and those
    // that are out afterwards come back.
    pub fn try_calls(
        &mut self,
        spare: &mut Spare<'_, '_>,
        hands: Hands,
        calls: &[Call<'_>],
        answers: &mut [Answer],
    ) -> Tried
        ensures tried { result.count ≡ min (length calls.now) (length answers.old) }
        ensures account { GoesOn S.Sink.shows R.Source.shows (table_of self.old) (take result.count calls.now) (take result.count answers.new) (table_of self.new) }
        ensures ran { Ran (Step S.Sink.shows R.Source.shows) (table_of self.old) [] (take result.count calls.now) (take result.count answers.new) (table_of self.new) }
        ensures rest { drop result.count answers.new ≡ drop result.count answers.old }
        ensures leases { (handed result.hands.playback ≡ self.new.playback.stream.now.lending.out) × (handed result.hands.capture ≡ self.new.capture.stream.now.lending.out) }
        ensures same { SameLoans self.old self.new }
        ensures spared { IsSpared spare.old spare.new }
    {
        let mut held = self.exchange(hands);
        for (count, place) in answers.iter_mut().enumerate() {
            let Some(call) = calls.get(count) else {
                return Tried { count, hands: held };
            };
            let Told { answer, hands } = self.step(spare, held, *call);
            *place = answer;
            held = hands;
        }
        Tried {
            count: answers.len(),
            hands: held,
        }
    }
}
