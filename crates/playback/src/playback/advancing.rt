// Frames that leave a playback stream, and what is noted of it.
ghost use Rattle.std.specs.Prelude.{◌≡◌, ◌≤◌, length};
ghost use Rattle.ledger.specs.LedgerSpans.{numbers_of, Room};
ghost use Rattle.account.specs.Ledgers.{noted};
ghost use Rattle.account.specs.Playback.{advanced};
ghost use Rattle.account.specs.PlaybackBook.{waits};
ghost use Rattle.playback.specs.PlaybackBook.{book_of};

use super::Playback;
use calls::entry::Entry;
use codes::state::State;
use ledger::noting::note;

impl Playback {
    // The oldest frames leave the ring, a state is entered, and an entry that is due is written.
    pub(crate) fn advance(
        &mut self,
        ledger: &mut [Entry],
        state: State,
        went: u32,
        due: Option<Entry>,
    )
        requires there { went ≤ waits (book_of self.old) }
        requires memory { length ledger.old ≡ self.old.ledger.size }
        requires room { Room self.old.ledger due }
        ensures state { book_of self.new ≡ advanced (book_of self.old) state went due }
        ensures memory { ledger.new ≡ noted (numbers_of self.old.ledger) ledger.old due }
    {
        note(&mut self.ledger, ledger, due);
        self.frames.free(went).unwrap();
        self.oldest += went;
        self.state = state;
    }
}
