// The states of a stream.
ghost use Rattle.std.specs.Prelude.{◌≡◌, Some};
ghost use Rattle.codes.specs.Numbered.{Numbered};
ghost use Rattle.codes.specs.States.{state_number, state_name};

use crate::unknown_number::UnknownNumber;
use std::fmt;

#[derive(Clone, Copy, PartialEq, Eq, Debug)]
pub enum State {
    Setup = 1,
    Prepared = 2,
    Running = 3,
    Xrun = 4,
    Draining = 5,
    Paused = 6,
}

impl State {
    pub fn name(self) -> &'static str
        ensures { result.now ≡ state_name self }
    {
        match self {
            State::Setup => "SETUP",
            State::Prepared => "PREPARED",
            State::Running => "RUNNING",
            State::Xrun => "XRUN",
            State::Draining => "DRAINING",
            State::Paused => "PAUSED",
        }
    }
}

impl fmt::Display for State {
    ghost output = { λ word. Some (state_name word) };

    fn fmt<W: fmt::Write>(&self, f: &mut fmt::Formatter<W>) -> fmt::Result {
        f.write_str(self.name())
    }
}

impl From<State> for u32 {
    ghost from_gives = { λ word n. n ≡ state_number word };

    fn from(word: State) -> u32 {
        word as u32
    }
}

impl TryFrom<u32> for State {
    type Error = UnknownNumber;

    ghost try_from_gives = { Numbered state_number };

    fn try_from(n: u32) -> Result<State, UnknownNumber> {
        match n {
            1 => Ok(State::Setup),
            2 => Ok(State::Prepared),
            3 => Ok(State::Running),
            4 => Ok(State::Xrun),
            5 => Ok(State::Draining),
            6 => Ok(State::Paused),
            _ => Err(UnknownNumber(n)),
        }
    }
}
