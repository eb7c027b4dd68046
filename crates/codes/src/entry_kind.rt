// What a ledger entry tells of.
ghost use Rattle.std.specs.Prelude.{◌≡◌, Some};
ghost use Rattle.codes.specs.Numbered.{Numbered};
ghost use Rattle.codes.specs.EntryKinds.{kind_number, kind_name};

use crate::unknown_number::UnknownNumber;
use std::fmt;

#[derive(Clone, Copy, PartialEq, Eq, Debug)]
pub enum EntryKind {
    Underrun = 1,
    SinkStop = 2,
    Overrun = 3,
    Prepared = 4,
    Dropped = 5,
}

impl EntryKind {
    pub fn name(self) -> &'static str
        ensures { result.now ≡ kind_name self }
    {
        match self {
            EntryKind::Underrun => "underrun",
            EntryKind::SinkStop => "sink stop",
            EntryKind::Overrun => "overrun",
            EntryKind::Prepared => "thrown away by prepare",
            EntryKind::Dropped => "thrown away by drop",
        }
    }
}

impl fmt::Display for EntryKind {
    ghost output = { λ word. Some (kind_name word) };

    fn fmt<W: fmt::Write>(&self, f: &mut fmt::Formatter<W>) -> fmt::Result {
        f.write_str(self.name())
    }
}

impl From<EntryKind> for u32 {
    ghost from_gives = { λ word n. n ≡ kind_number word };

    fn from(word: EntryKind) -> u32 {
        word as u32
    }
}

impl TryFrom<u32> for EntryKind {
    type Error = UnknownNumber;

    ghost try_from_gives = { Numbered kind_number };

    fn try_from(n: u32) -> Result<EntryKind, UnknownNumber> {
        match n {
            1 => Ok(EntryKind::Underrun),
            2 => Ok(EntryKind::SinkStop),
            3 => Ok(EntryKind::Overrun),
            4 => Ok(EntryKind::Prepared),
            5 => Ok(EntryKind::Dropped),
            _ => Err(UnknownNumber(n)),
        }
    }
}
