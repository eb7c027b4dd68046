// What a state makes of a call.
ghost use Rattle.std.specs.Prelude.{◌≡◌};
ghost use Rattle.calls.specs.Effects.{state_after};

use codes::refusal::Refusal;
use codes::state::State;

#[derive(Clone, Copy)]
pub enum CallKind {
    Begin,
    // put, mix or copy
    Access,
    Commit,
    Start,
    Tick,
    Pause,
    Resume,
    Drain,
    Drop,
    Prepare,
    Take,
}

// What an allowed call does: the state stays, frames move, or another state is entered.
#[derive(Clone, Copy)]
pub enum Effect {
    Stay,
    Move,
    Enter(State),
}

impl Effect {
    // The state after the call, by the state before.
    pub fn state_after(self, before: State) -> State
        ensures { result ≡ state_after self before }
    {
        match self {
            Effect::Stay | Effect::Move => before,
            Effect::Enter(state) => state,
        }
    }
}

pub type Verdict = Result<Effect, Refusal>;
