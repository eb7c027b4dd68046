// An entry of the ledger.
ghost use Rattle.std.specs.Prelude.{◌≡◌};
ghost use Rattle.calls.specs.Checks.{loss_of};

use codes::entry_kind::EntryKind;

// The frames from `first` on, `lost` of them, were thrown away; `missed` more were asked for than went. An entry has these six
// parts whatever its kind: cause and depth are the sink's where it stopped, and 0 elsewhere. A cause is a plain number, since any
// sink may have causes of its own.
#[derive(Clone, Copy)]
pub struct Entry {
    pub kind: EntryKind,
    pub first: u32,
    pub lost: u32,
    pub missed: u32,
    pub cause: u32,
    pub depth: u8,
}

impl Entry {
    // The entry for frames that are thrown away, if there are any.
    pub fn of_loss(kind: EntryKind, first: u32, lost: u32) -> Option<Entry>
        ensures { result ≡ loss_of kind first lost }
    {
        if lost == 0 {
            return None;
        }
        Some(Entry {
            kind,
            first,
            lost,
            missed: 0,
            cause: 0,
            depth: 0,
        })
    }
}
