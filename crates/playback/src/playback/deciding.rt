// What a playback stream makes of a call, by its state and the frames that wait.
ghost use Rattle.std.specs.Prelude.{◌≡◌};
ghost use Rattle.account.specs.Playback.{decides};
ghost use Rattle.account.specs.PlaybackBook.{waits};
ghost use Rattle.playback.specs.PlaybackBook.{book_of};

use super::Playback;
use calls::verdict::Effect::{Enter, Move, Stay};
use calls::verdict::{CallKind, Verdict};
use codes::refusal::Refusal;
use codes::state::State;

impl Playback {
    // The frames that are committed and not yet played.
    pub(crate) fn waiting(&self) -> u32
        ensures { result ≡ waits (book_of self.now) }
    {
        self.committed - self.oldest
    }

    pub(crate) fn decide(&self, call: CallKind) -> Verdict
        ensures { result ≡ decides (book_of self.now) call }
    {
        match (self.state, call) {
            (_, CallKind::Take) => Ok(Stay),
            (
                State::Prepared | State::Running | State::Paused,
                CallKind::Begin | CallKind::Access | CallKind::Commit,
            ) => Ok(Stay),
            (State::Prepared, CallKind::Start) if self.waiting() == 0 => Err(
                Refusal::NothingWaiting,
            ),
            (State::Prepared, CallKind::Start) => Ok(Enter(State::Running)),
            (State::Running | State::Draining, CallKind::Tick) => Ok(Move),
            (_, CallKind::Tick) => Ok(Stay),
            (State::Running, CallKind::Pause) => Ok(Enter(State::Paused)),
            (State::Paused, CallKind::Resume) => Ok(Enter(State::Running)),
            (State::Prepared | State::Running, CallKind::Drain) if self.waiting() == 0 => Ok(Enter(
                State::Setup,
            )),
            (State::Prepared | State::Running, CallKind::Drain) => Ok(Enter(State::Draining)),
            (State::Setup, CallKind::Drop) => Err(Refusal::State),
            (_, CallKind::Drop) => Ok(Enter(State::Setup)),
            (State::Setup | State::Xrun, CallKind::Prepare) => Ok(Enter(State::Prepared)),
            (State::Xrun, _) => Err(Refusal::Xrun),
            (_, _) => Err(Refusal::State),
        }
    }
}
