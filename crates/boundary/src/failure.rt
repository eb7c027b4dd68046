// Why a script or a recording was not run to its end.
ghost use Rattle.std.specs.Prelude.{◌≡◌};
ghost use Rattle.boundary.specs.Failures.{failure_number};
ghost use Rattle.boundary.specs.declared.failure.Failure.TheVariants.{Refused, NoMemory};

use codes::refusal::Refusal;
use std::alloc::AllocError;

#[derive(Clone, Copy, PartialEq, Eq, Debug)]
pub enum Failure {
    // a number of the set-up
    Refused(Refusal),
    NotDecoded,
    NoRoom,
    NoMemory,
}

// The status that tells of it; 0 tells that all calls were tried.
impl From<Failure> for u32 {
    ghost from_gives = { λ failure n. n ≡ failure_number failure };

    fn from(failure: Failure) -> u32 {
        match failure {
            Failure::Refused(why) => u32::from(why),
            Failure::NotDecoded => 100,
            Failure::NoRoom => 101,
            Failure::NoMemory => 102,
        }
    }
}

impl From<Refusal> for Failure {
    ghost from_gives = { λ why failure. failure ≡ Refused why };

    fn from(why: Refusal) -> Failure {
        Failure::Refused(why)
    }
}

impl From<AllocError> for Failure {
    ghost from_gives = { λ _ failure. failure ≡ NoMemory };

    fn from(_: AllocError) -> Failure {
        Failure::NoMemory
    }
}
