// The calls of a playback stream that throw away the frames that wait.
// Both streams have these calls, each over its own book. The checks and the entry are shared; a trait for the rest would be as long.
ghost use Rattle.std.specs.Result.{result_err};
ghost use Rattle.std.specs.Prelude.{◌≡◌, ◌<◌, length, IfOk, OnOk};
ghost use Rattle.ledger.specs.LedgerSpans.{numbers_of};
ghost use Rattle.account.specs.Ledgers.{noted};
ghost use Rattle.account.specs.Playback.{Drops, Prepares, decides, emptied, loss, no_emptying};
ghost use Rattle.account.specs.PlaybackBook.{waits};
ghost use Rattle.playback.specs.PlaybackBook.{book_of};
ghost use Rattle.account.specs.Rules.{first_of};
ghost use Rattle.account.specs.States.{entered};
ghost use Rattle.calls.specs.Told.{told};

use super::Playback;
use calls::elsewhere::check_length;
use calls::entry::Entry;
use calls::verdict::CallKind;
use codes::entry_kind::EntryKind;
use codes::refusal::Refusal;
use codes::state::State;
use ledger::noting::check_room;
use sinks::sink::Sink;

impl Playback {
    // The state after a call that throws away the frames that wait, or why it may not.
    fn check_emptying(&self, ledger: &[Entry], call: CallKind) -> Result<State, Refusal>
        ensures answer { result_err result ≡ first_of (no_emptying (book_of self.now) call ledger.now) }
        ensures state { IfOk result (λ s. s ≡ entered (decides (book_of self.now) call) self.now.state) }
        ensures memory { OnOk result (length ledger.now ≡ self.now.ledger.size) }
        ensures rule { OnOk result (0 < waits (book_of self.now) → self.now.ledger.count < self.now.ledger.size) }
    {
        check_length(ledger, self.geometry.ledger())?;
        let effect = self.decide(call)?;
        if self.waiting() > 0 {
            check_room(&self.ledger)?;
        }
        Ok(effect.state_after(self.state))
    }

    // Throws away the frames that wait, and any lease; a state is entered.
    fn empty(&mut self, ledger: &mut [Entry], state: State, kind: EntryKind)
        requires memory { length ledger.old ≡ self.old.ledger.size }
        requires room { 0 < waits (book_of self.old) → self.old.ledger.count < self.old.ledger.size }
        ensures state { book_of self.new ≡ emptied (book_of self.old) state (loss kind (book_of self.old)) }
        ensures memory { ledger.new ≡ noted (numbers_of self.old.ledger) ledger.old (loss kind (book_of self.old)) }
    {
        let due = Entry::of_loss(kind, self.oldest, self.waiting());
        self.advance(ledger, state, self.waiting(), due);
        self.lending.out = None;
    }

    // Throws away the frames that wait and goes back to SETUP.
    pub fn drop(&mut self, ledger: &mut [Entry]) -> Result<(), Refusal>
        ensures { Drops (book_of self.old) ledger.old (told result) (book_of self.new) ledger.new }
    {
        let state = self.check_emptying(ledger, CallKind::Drop)?;
        self.empty(ledger, state, EntryKind::Dropped);
        Ok(())
    }

    // Makes the stream ready to be written and started, with nothing waiting, and heals its sink.
    pub fn prepare<S: Sink>(&mut self, sink: &mut S, ledger: &mut [Entry]) -> Result<(), Refusal>
        ensures { Prepares S.Sink.shows (book_of self.old) sink.old ledger.old (told result) (book_of self.new) sink.new ledger.new }
    {
        let state = self.check_emptying(ledger, CallKind::Prepare)?;
        self.empty(ledger, state, EntryKind::Prepared);
        sink.heal();
        Ok(())
    }
}
