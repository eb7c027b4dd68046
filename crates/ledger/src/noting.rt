// Entries of the ledger, written and taken.
ghost use Rattle.std.specs.Prelude.{◌≡◌, ◌<◌, None, nat_le, OnOk};
ghost use Rattle.codes.specs.declared.refusal.Refusal.TheVariants.{LedgerFull};
ghost use Rattle.calls.specs.Checks.{refused_if};
ghost use Rattle.ring.specs.Rings.{GivesUp};
ghost use Rattle.ledger.specs.LedgerSpans.{numbers_of, FitsIn, Whole};
ghost use Rattle.account.specs.Ledgers.{noted, with_noted, with_taken, oldest_of};

use calls::entry::Entry;
use codes::refusal::Refusal;
use ring::ring::Ring;
use ring::span::Span;

// A ledger with no room for another entry is refused.
pub fn check_room(span: &Span) -> Result<(), Refusal>
    ensures answer { result ≡ refused_if (nat_le span.now.size span.now.count) LedgerFull }
    ensures room { OnOk result (span.now.count < span.now.size) }
{
    if span.is_full() {
        return Err(Refusal::LedgerFull);
    }
    Ok(())
}

// Writes an entry that is due, if one is, at the newest end of the ledger. Where there is no room for it, or the memory
// is not the ledger's, nothing changes.
pub fn note(span: &mut Span, ledger: &mut [Entry], due: Option<Entry>)
    ensures numbers { FitsIn span.old ledger.old due → numbers_of span.new ≡ with_noted (numbers_of span.old) due }
    ensures memory { FitsIn span.old ledger.old due → ledger.new ≡ noted (numbers_of span.old) ledger.old due }
    ensures same { span.new.size ≡ span.old.size }
    ensures refused { (FitsIn span.old ledger.old due → ⊥) → (numbers_of span.new ≡ numbers_of span.old) × (ledger.new ≡ ledger.old) }
{
    if let Some(entry) = due {
        let mut ring = Ring::over(ledger, *span);
        let _ = ring.add(entry);
        *span = ring.span();
    }
}

// The ring of the ledger gives up its oldest entry.
fn give_up_oldest(span: &mut Span, ledger: &mut [Entry]) -> Option<Entry>
    ensures answer { GivesUp result span.old ledger.old span.new }
    ensures memory { ledger.new ≡ ledger.old }
{
    let mut ring = Ring::over(ledger, *span);
    let entry = ring.give_up();
    *span = ring.span();
    entry
}

// Takes the oldest entry out of the ledger. Where the memory is not the ledger's, nothing is taken.
pub fn take_oldest(span: &mut Span, ledger: &mut [Entry]) -> Option<Entry>
    ensures answer { Whole span.old ledger.old → result ≡ oldest_of (numbers_of span.old) ledger.old }
    ensures numbers { Whole span.old ledger.old → numbers_of span.new ≡ with_taken (numbers_of span.old) }
    ensures same { span.new.size ≡ span.old.size }
    ensures memory { ledger.new ≡ ledger.old }
    ensures refused { (Whole span.old ledger.old → ⊥) → (result ≡ None) × (numbers_of span.new ≡ numbers_of span.old) }
{
    give_up_oldest(span, ledger)
}
