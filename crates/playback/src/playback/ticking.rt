// A playback stream's tick: the oldest frames that wait are played.
ghost use Rattle.std.specs.Prelude.{◌≡◌, ◌≤◌};
ghost use Rattle.account.specs.Playback.{Ticks, after_tick, periods};
ghost use Rattle.account.specs.PlaybackBook.{waits};
ghost use Rattle.playback.specs.PlaybackBook.{book_of};
ghost use Rattle.playback.specs.PlaybackTicks.{entry_of};
ghost use Rattle.calls.specs.Told.{told_tick};

use super::Playback;
use crate::playing::{Gone, play};
use calls::answer::Ticked;
use calls::elsewhere::check_length;
use calls::entry::Entry;
use calls::verdict::{CallKind, Effect};
use codes::entry_kind::EntryKind;
use codes::refusal::Refusal;
use codes::state::State;
use frames::frame::Frame;
use ledger::noting::check_room;
use sinks::sink::Sink;

impl Playback {
    // The state after a tick of k frames, of which some went.
    fn after_tick(&self, k: u32, went: u32) -> State
        ensures { result ≡ after_tick (book_of self.now) k went }
    {
        if went == self.waiting() {
            match self.state {
                State::Draining => State::Setup,
                _ => State::Xrun,
            }
        } else if went < k {
            State::Xrun
        } else {
            self.state
        }
    }

    // The entry that is due after a tick of k frames, if one is.
    fn tick_entry(&self, k: u32, gone: Gone) -> Option<Entry>
        requires { gone.went ≤ waits (book_of self.now) }
        ensures { result ≡ entry_of (book_of self.now) k gone.went gone.stop }
    {
        let missed = k.saturating_sub(gone.went);
        match (gone.stop, self.state) {
            (Some(stop), _) => Some(Entry {
                kind: EntryKind::SinkStop,
                first: self.oldest + gone.went,
                lost: 0,
                missed,
                cause: stop.cause,
                depth: stop.depth,
            }),
            (None, State::Draining) => None,
            (None, _) if gone.went == self.waiting() => Some(Entry {
                kind: EntryKind::Underrun,
                first: self.committed,
                lost: 0,
                missed,
                cause: 0,
                depth: 0,
            }),
            (None, _) => None,
        }
    }

    // Plays at most k frames, in a state that moves frames.
    pub fn tick<S: Sink>(
        &mut self,
        sink: &mut S,
        memory: &[Frame],
        ledger: &mut [Entry],
        k: u32,
    ) -> Result<Ticked, Refusal>
        ensures { Ticks S.Sink.shows (book_of self.old) sink.old memory.now ledger.old k (told_tick result) (book_of self.new) sink.new ledger.new }
    {
        check_length(memory, self.geometry.buffer())?;
        check_length(ledger, self.geometry.ledger())?;
        let Effect::Move = self.decide(CallKind::Tick)? else {
            return Ok(Ticked {
                frames: 0,
                state: self.state,
                periods: 0,
            });
        };
        check_room(&self.ledger)?;
        let gone = play(sink, &self.frames, memory, k);
        let ticked = Ticked {
            frames: gone.went,
            state: self.after_tick(k, gone.went),
            periods: self.geometry.periods(self.oldest, gone.went),
        };
        let due = self.tick_entry(k, gone);
        self.advance(ledger, ticked.state, gone.went, due);
        Ok(ticked)
    }
}
