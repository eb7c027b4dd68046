// A new capture stream, and the calls that change its state alone.
// Both streams have these calls, each over its own table: a trait would have to name the table and book of each, and its impls
// would be as long as the two lines here.
ghost use Rattle.std.specs.Prelude.{◌≡◌};
ghost use Rattle.calls.specs.declared.verdict.CallKind.TheVariants.{Start, Pause, Resume};
ghost use Rattle.account.specs.Capture.{Drains, Turns};
ghost use Rattle.account.specs.CaptureBook.{fresh};
ghost use Rattle.capture.specs.CaptureBook.{book_of};
ghost use Rattle.calls.specs.Told.{told};

use super::Capture;
use calls::lease_parts::Lending;
use calls::verdict::CallKind;
use codes::refusal::Refusal;
use codes::state::State;
use geometry::geometry::Geometry;
use ring::span::Span;

impl Capture {
    // A stream just set up.
    pub fn new(geometry: Geometry) -> Capture
        ensures { book_of result ≡ fresh geometry }
    {
        Capture {
            geometry,
            state: State::Setup,
            given: 0,
            oldest: 0,
            unread: 0,
            lending: Lending::default(),
            // A geometry has no empty ring.
            frames: Span::new(geometry.buffer()).unwrap(),
            ledger: Span::new(geometry.ledger()).unwrap(),
        }
    }

    // Does what the state makes of a call that moves no frames.
    fn turn(&mut self, call: CallKind) -> Result<(), Refusal>
        ensures { Turns (book_of self.old) call (told result) (book_of self.new) }
    {
        self.state = self.decide(call)?.state_after(self.state);
        Ok(())
    }

    pub fn start(&mut self) -> Result<(), Refusal>
        ensures { Turns (book_of self.old) Start (told result) (book_of self.new) }
    {
        self.turn(CallKind::Start)
    }

    pub fn pause(&mut self) -> Result<(), Refusal>
        ensures { Turns (book_of self.old) Pause (told result) (book_of self.new) }
    {
        self.turn(CallKind::Pause)
    }

    pub fn resume(&mut self) -> Result<(), Refusal>
        ensures { Turns (book_of self.old) Resume (told result) (book_of self.new) }
    {
        self.turn(CallKind::Resume)
    }

    // No frame comes any more; a stream with frames unread waits until they are read.
    pub fn drain(&mut self) -> Result<(), Refusal>
        ensures { Drains (book_of self.old) (told result) (book_of self.new) }
    {
        self.lending.check_none_out()?;
        self.turn(CallKind::Drain)
    }
}
