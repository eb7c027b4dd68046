// The ledger of a playback stream, read by its owner.
// Both streams have this call, each over its own book; it is two lines.
ghost use Rattle.std.specs.Prelude.{◌≡◌};
ghost use Rattle.account.specs.Playback.{Takes};
ghost use Rattle.playback.specs.PlaybackBook.{book_of};
ghost use Rattle.calls.specs.Told.{told_entry};

use super::Playback;
use calls::elsewhere::check_length;
use calls::entry::Entry;
use codes::refusal::Refusal;
use ledger::noting::take_oldest;

impl Playback {
    // Takes the oldest entry out of the ledger, whatever the state.
    pub fn take(&mut self, ledger: &mut [Entry]) -> Result<Option<Entry>, Refusal>
        ensures answer { Takes (book_of self.old) ledger.old (told_entry result) (book_of self.new) }
        ensures memory { ledger.new ≡ ledger.old }
    {
        check_length(ledger, self.geometry.ledger())?;
        Ok(take_oldest(&mut self.ledger, ledger))
    }
}
