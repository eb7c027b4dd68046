// The ledger of a capture stream, read by its owner.
// Both streams have this call, each over its own book; it is two lines.
ghost use Rattle.std.specs.Prelude.{◌≡◌};
ghost use Rattle.account.specs.Capture.{Takes};
ghost use Rattle.capture.specs.CaptureBook.{book_of};
ghost use Rattle.calls.specs.Told.{told_entry};

use super::Capture;
use calls::elsewhere::check_length;
use calls::entry::Entry;
use codes::refusal::Refusal;
use ledger::noting::take_oldest;

impl Capture {
    // Takes the oldest entry out of the ledger, whatever the state.
    pub fn take(&mut self, ledger: &mut [Entry]) -> Result<Option<Entry>, Refusal>
        ensures answer { Takes (book_of self.old) ledger.old (told_entry result) (book_of self.new) }
        ensures memory { ledger.new ≡ ledger.old }
    {
        check_length(ledger, self.geometry.ledger())?;
        Ok(take_oldest(&mut self.ledger, ledger))
    }
}
