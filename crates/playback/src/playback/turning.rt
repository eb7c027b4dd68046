// The calls of a playback stream that only change its state.
// Both streams have these calls, each over its own table: a trait would have to name the table and book of each, and its impls
// would be as long as the two lines here.
ghost use Rattle.calls.specs.declared.verdict.CallKind.TheVariants.{Start, Pause, Resume};
ghost use Rattle.account.specs.Playback.{Turns, Drains};
ghost use Rattle.playback.specs.PlaybackBook.{book_of};
ghost use Rattle.calls.specs.Told.{told};

use super::Playback;
use calls::verdict::CallKind;
use codes::refusal::Refusal;

impl Playback {
    // Does what the table of states says of a call that only changes the state.
    fn turn(&mut self, call: CallKind) -> Result<(), Refusal>
        ensures { Turns (book_of self.old) call (told result) (book_of self.new) }
    {
        self.state = self.decide(call)?.state_after(self.state);
        Ok(())
    }

    pub fn start(&mut self) -> Result<(), Refusal>
        ensures { Turns (book_of self.old) Start (told result) (book_of self.new) }
    {
        self.turn(CallKind::Start)
    }

    pub fn pause(&mut self) -> Result<(), Refusal>
        ensures { Turns (book_of self.old) Pause (told result) (book_of self.new) }
    {
        self.turn(CallKind::Pause)
    }

    pub fn resume(&mut self) -> Result<(), Refusal>
        ensures { Turns (book_of self.old) Resume (told result) (book_of self.new) }
    {
        self.turn(CallKind::Resume)
    }

    // Lets the frames that wait be played, and takes no more.
    pub fn drain(&mut self) -> Result<(), Refusal>
        ensures { Drains (book_of self.old) (told result) (book_of self.new) }
    {
        self.lending.check_none_out()?;
        self.turn(CallKind::Drain)
    }
}
