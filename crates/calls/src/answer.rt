// What a call answers.
ghost use Rattle.std.specs.Prelude.{◌≡◌};
ghost use Rattle.calls.specs.declared.answer.Outcome.TheVariants as outcome;

use crate::entry::Entry;
use crate::lease_parts::LeaseParts;
use codes::refusal::Refusal;
use codes::state::State;

// How many frames went or were stored, the state after, and the periods passed.
#[derive(Clone, Copy)]
pub struct Ticked {
    pub frames: u32,
    pub state: State,
    pub periods: u32,
}

// What an obeyed call has to tell.
#[derive(Clone, Copy)]
pub enum Outcome {
    Done,
    Granted(LeaseParts),
    Ticked(Ticked),
    Taken(Option<Entry>),
}

pub type Answer = Result<Outcome, Refusal>;

impl From<()> for Outcome {
    ghost from_gives = { λ _ told. told ≡ outcome.Done };

    fn from(_nothing: ()) -> Outcome {
        Outcome::Done
    }
}

impl From<Ticked> for Outcome {
    ghost from_gives = { λ ticked told. told ≡ outcome.Ticked ticked };

    fn from(ticked: Ticked) -> Outcome {
        Outcome::Ticked(ticked)
    }
}

impl From<Option<Entry>> for Outcome {
    ghost from_gives = { λ entry told. told ≡ outcome.Taken entry };

    fn from(entry: Option<Entry>) -> Outcome {
        Outcome::Taken(entry)
    }
}
