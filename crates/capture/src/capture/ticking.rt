// A capture stream's tick: frames come from its source.
ghost use Rattle.std.specs.Prelude.{◌≡◌, ◌+◌, ◌^◌, ◌<◌, length, Ok};
ghost use Rattle.calls.specs.declared.answer.Outcome.TheVariants as outcome;
ghost use Rattle.account.specs.Capture.{Captured, Ticks, after_tick, filled, overrun};
ghost use Rattle.capture.specs.CaptureBook.{book_of};
ghost use Rattle.account.specs.Playback.{periods};
ghost use Rattle.calls.specs.Told.{told_tick};

use super::Capture;
use crate::storing::{Came, take_in};
use calls::answer::Ticked;
use calls::elsewhere::check_length;
use calls::entry::Entry;
use calls::verdict::{CallKind, Effect};
use codes::entry_kind::EntryKind;
use codes::refusal::Refusal;
use codes::state::State;
use frames::frame::Frame;
use ledger::noting::{check_room, note};
use sources::source::Source;

impl Capture {
    // Whether the ring is full with n frames more.
    fn fills(&self, n: u32) -> bool
        ensures { result ≡ filled (book_of self.now) n }
    {
        n == self.geometry.buffer() - self.unread
    }

    // The state once n frames more are stored.
    fn after_tick(&self, n: u32) -> State
        ensures { result ≡ after_tick (book_of self.now) n }
    {
        if self.fills(n) {
            State::Xrun
        } else {
            self.state
        }
    }

    // The entry that is due, if the ring is full.
    fn overrun(&self, came: Came) -> Option<Entry>
        requires { self.now.oldest + self.now.unread + came.kept < 2 ^ 32 }
        ensures { result ≡ overrun (book_of self.now) came.kept came.lost }
    {
        if !self.fills(came.kept) {
            return None;
        }
        Some(Entry {
            kind: EntryKind::Overrun,
            first: self.oldest + self.unread + came.kept,
            lost: came.lost,
            missed: 0,
            cause: 0,
            depth: 0,
        })
    }

    // Gets at most k frames, stores those that the ring has room for, and says what is to be said.
    fn capture<R: Source>(
        &mut self,
        source: &mut R,
        memory: &mut [Frame],
        ledger: &mut [Entry],
        k: u32,
    ) -> Ticked
        requires memory { length memory.old ≡ self.old.geometry.buffer }
        requires ledger { length ledger.old ≡ self.old.ledger.size }
        requires room { self.old.ledger.count < self.old.ledger.size }
        requires limit { self.old.given + k < 2 ^ 32 }
        ensures { Captured R.Source.shows (book_of self.old) source.old memory.old ledger.old k (Ok (outcome.Ticked result)) (book_of self.new) source.new memory.new ledger.new }
    {
        let mut frames = self.frames;
        let came = take_in(source, &mut frames, memory, k);
        let ticked = Ticked {
            frames: came.kept,
            state: self.after_tick(came.kept),
            periods: self.geometry.periods(self.oldest + self.unread, came.kept),
        };
        let due = self.overrun(came);
        note(&mut self.ledger, ledger, due);
        self.frames = frames;
        self.given += came.kept + came.lost;
        self.unread += came.kept;
        self.state = ticked.state;
        ticked
    }

    // Lets at most k frames come, where the stream runs. A frame for which there is no room is lost.
    pub fn tick<R: Source>(
        &mut self,
        source: &mut R,
        memory: &mut [Frame],
        ledger: &mut [Entry],
        k: u32,
    ) -> Result<Ticked, Refusal>
        ensures { Ticks R.Source.shows (book_of self.old) source.old memory.old ledger.old k (told_tick result) (book_of self.new) source.new memory.new ledger.new }
    {
        check_length(memory, self.geometry.buffer())?;
        check_length(ledger, self.geometry.ledger())?;
        let Effect::Move = self.decide(CallKind::Tick)? else {
            return Ok(Ticked {
                frames: 0,
                state: self.state,
                periods: 0,
            });
        };
        if k > u32::MAX - self.given {
            return Err(Refusal::Limit);
        }
        check_room(&self.ledger)?;
        Ok(self.capture(source, memory, ledger, k))
    }
}
