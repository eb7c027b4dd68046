// Why a call was refused.
ghost use Rattle.std.specs.Prelude.{◌≡◌, Some};
ghost use Rattle.codes.specs.Numbered.{Numbered};
ghost use Rattle.codes.specs.Refusals.{refusal_number, refusal_name};

use crate::unknown_number::UnknownNumber;
use std::error::Error;
use std::fmt;

#[derive(Clone, Copy, PartialEq, Eq, Debug)]
pub enum Refusal {
    Geometry = 1,
    Layer = 2,
    Memory = 3,
    State = 4,
    Xrun = 5,
    Zero = 6,
    Unavailable = 7,
    NothingWaiting = 8,
    LeaseOut = 9,
    WrongLease = 10,
    Beyond = 11,
    LedgerFull = 12,
    Limit = 13,
}

impl Refusal {
    pub fn name(self) -> &'static str
        ensures { result.now ≡ refusal_name self }
    {
        match self {
            Refusal::Geometry => "the geometry breaks its rules",
            Refusal::Layer => "a layer's numbers are outside their limits",
            Refusal::Memory => "the memory has another length",
            Refusal::State => "the call is not for this state",
            Refusal::Xrun => "the stream is in XRUN",
            Refusal::Zero => "begin of 0 frames",
            Refusal::Unavailable => "nothing is available",
            Refusal::NothingWaiting => "nothing is waiting to be played",
            Refusal::LeaseOut => "a lease is out",
            Refusal::WrongLease => "not the lease that is out",
            Refusal::Beyond => "beyond the lease's length",
            Refusal::LedgerFull => "the ledger is full",
            Refusal::Limit => "a count would pass its limit",
        }
    }
}

impl fmt::Display for Refusal {
    ghost output = { λ word. Some (refusal_name word) };

    fn fmt<W: fmt::Write>(&self, f: &mut fmt::Formatter<W>) -> fmt::Result {
        f.write_str(self.name())
    }
}

impl Error for Refusal {}

impl From<Refusal> for u32 {
    ghost from_gives = { λ word n. n ≡ refusal_number word };

    fn from(word: Refusal) -> u32 {
        word as u32
    }
}

impl TryFrom<u32> for Refusal {
    type Error = UnknownNumber;

    ghost try_from_gives = { Numbered refusal_number };

    fn try_from(n: u32) -> Result<Refusal, UnknownNumber> {
        match n {
            1 => Ok(Refusal::Geometry),
            2 => Ok(Refusal::Layer),
            3 => Ok(Refusal::Memory),
            4 => Ok(Refusal::State),
            5 => Ok(Refusal::Xrun),
            6 => Ok(Refusal::Zero),
            7 => Ok(Refusal::Unavailable),
            8 => Ok(Refusal::NothingWaiting),
            9 => Ok(Refusal::LeaseOut),
            10 => Ok(Refusal::WrongLease),
            11 => Ok(Refusal::Beyond),
            12 => Ok(Refusal::LedgerFull),
            13 => Ok(Refusal::Limit),
            _ => Err(UnknownNumber(n)),
        }
    }
}
