// The calls of a capture stream that throw away the unread frames.
// Both streams have these calls, each over its own book. The checks and the entry are shared; a trait for the rest would be as long.
ghost use Rattle.std.specs.Result.{result_err};
ghost use Rattle.std.specs.Prelude.{◌≡◌, ◌<◌, length, IfOk, OnOk};
ghost use Rattle.account.specs.Capture.{Drops, Prepares, decides, emptied, loss, no_emptying};
ghost use Rattle.capture.specs.CaptureBook.{book_of};
ghost use Rattle.ledger.specs.LedgerSpans.{numbers_of, Room};
ghost use Rattle.account.specs.Ledgers.{noted};
ghost use Rattle.account.specs.Rules.{first_of};
ghost use Rattle.account.specs.States.{entered};
ghost use Rattle.calls.specs.Told.{told};

use super::Capture;
use calls::elsewhere::check_length;
use calls::entry::Entry;
use calls::verdict::CallKind;
use codes::entry_kind::EntryKind;
use codes::refusal::Refusal;
use codes::state::State;
use ledger::noting::{check_room, note};

impl Capture {
    // The state after a call that throws away the unread frames, or why it may not.
    fn check_emptying(&self, ledger: &[Entry], call: CallKind) -> Result<State, Refusal>
        ensures answer { result_err result ≡ first_of (no_emptying (book_of self.now) call ledger.now) }
        ensures state { IfOk result (λ s. s ≡ entered (decides (book_of self.now) call) self.now.state) }
        ensures memory { OnOk result (length ledger.now ≡ self.now.ledger.size) }
        ensures rule { OnOk result (0 < self.now.unread → self.now.ledger.count < self.now.ledger.size) }
    {
        check_length(ledger, self.geometry.ledger())?;
        let effect = self.decide(call)?;
        if self.unread > 0 {
            check_room(&self.ledger)?;
        }
        Ok(effect.state_after(self.state))
    }

    // Empties the ring and ends any lease; a state is entered, and an entry that is due is written.
    fn clear(&mut self, ledger: &mut [Entry], state: State, due: Option<Entry>)
        requires memory { length ledger.old ≡ self.old.ledger.size }
        requires room { Room self.old.ledger due }
        ensures state { book_of self.new ≡ emptied (book_of self.old) state due }
        ensures memory { ledger.new ≡ noted (numbers_of self.old.ledger) ledger.old due }
    {
        let place = self.geometry.place(self.given);
        note(&mut self.ledger, ledger, due);
        self.frames.free(self.unread).unwrap();
        self.frames.set_to(place).unwrap();
        self.oldest = self.given;
        self.unread = 0;
        self.lending.out = None;
        self.state = state;
    }

    // Throws away the unread frames, and any lease; a state is entered.
    fn empty(&mut self, ledger: &mut [Entry], state: State, kind: EntryKind)
        requires memory { length ledger.old ≡ self.old.ledger.size }
        requires room { 0 < self.old.unread → self.old.ledger.count < self.old.ledger.size }
        ensures state { book_of self.new ≡ emptied (book_of self.old) state (loss kind (book_of self.old)) }
        ensures memory { ledger.new ≡ noted (numbers_of self.old.ledger) ledger.old (loss kind (book_of self.old)) }
    {
        let due = Entry::of_loss(kind, self.oldest, self.unread);
        self.clear(ledger, state, due);
    }

    // Throws the unread frames away and goes back to SETUP.
    pub fn drop(&mut self, ledger: &mut [Entry]) -> Result<(), Refusal>
        ensures { Drops (book_of self.old) ledger.old (told result) (book_of self.new) ledger.new }
    {
        let state = self.check_emptying(ledger, CallKind::Drop)?;
        self.empty(ledger, state, EntryKind::Dropped);
        Ok(())
    }

    // Makes the stream ready to start, with nothing unread.
    pub fn prepare(&mut self, ledger: &mut [Entry]) -> Result<(), Refusal>
        ensures { Prepares (book_of self.old) ledger.old (told result) (book_of self.new) ledger.new }
    {
        let state = self.check_emptying(ledger, CallKind::Prepare)?;
        self.empty(ledger, state, EntryKind::Prepared);
        Ok(())
    }
}
