// A playback stream set up, and its leases granted and ended.
ghost use Rattle.std.specs.Prelude.{◌≡◌};
ghost use Rattle.account.specs.Playback.{Begins, Commits, started};
ghost use Rattle.account.specs.PlaybackBook.{fresh};
ghost use Rattle.playback.specs.PlaybackBook.{book_of};
ghost use Rattle.calls.specs.Told.{told, told_lease, handed};

use super::Playback;
use crate::lease::{Lease, Seal};
use calls::lease_parts::Lending;
use calls::verdict::CallKind;
use codes::refusal::Refusal;
use codes::state::State;
use geometry::geometry::Geometry;
use ring::span::Span;

impl Playback {
    // A stream just set up.
    pub fn new(geometry: Geometry) -> Playback
        ensures { book_of result ≡ fresh geometry }
    {
        Playback {
            geometry,
            state: State::Setup,
            committed: 0,
            oldest: 0,
            lending: Lending::default(),
            // A geometry has no empty ring.
            frames: Span::new(geometry.buffer()).unwrap(),
            ledger: Span::new(geometry.ledger()).unwrap(),
        }
    }

    // The next lease, on the free places from where the next frame goes, as far as the ring goes on.
    pub fn begin(&mut self, wanted: u32) -> Result<Lease, Refusal>
        ensures { Begins (book_of self.old) wanted (told_lease result) (book_of self.new) }
    {
        self.lending.check_none_out()?;
        self.decide(CallKind::Begin)?;
        if wanted == 0 {
            return Err(Refusal::Zero);
        }
        let free = self.geometry.buffer() - self.waiting();
        if free == 0 {
            return Err(Refusal::Unavailable);
        }
        let place = self.geometry.place(self.committed);
        let length = self.geometry.area(wanted, free, place);
        let tag = self.geometry.tag();
        let parts = self.lending.grant(tag, place, length)?;
        Ok(Lease::new(parts, Seal(())))
    }

    // The state once n frames more wait: a prepared stream runs from its start threshold on.
    fn started(&self, n: u32) -> State
        ensures { result ≡ started (book_of self.now) n }
    {
        let enough = self.geometry.threshold() as u64;
        match self.state {
            State::Prepared if self.waiting() as u64 + n as u64 >= enough => State::Running,
            state => state,
        }
    }

    // Ends the lease, and takes in the first n frames of its area, which were written before.
    pub fn commit(&mut self, lease: Lease, n: u32) -> Result<(), Refusal>
        ensures { Commits (book_of self.old) lease.parts n (told result) (book_of self.new) }
    {
        let parts = lease.end(Seal(()));
        self.lending.check_holds(parts)?;
        if let Err(why) = self.decide(CallKind::Commit) {
            // In XRUN the lease has ended all the same.
            if let State::Xrun = self.state {
                self.lending.out = None;
            }
            return Err(why);
        }
        self.lending.out = None;
        parts.check_within(0, n as usize)?;
        let committed = self.committed.checked_add(n).ok_or(Refusal::Limit)?;
        self.state = self.started(n);
        self.frames.take_in(n).unwrap();
        self.committed = committed;
        Ok(())
    }

    // One line in both streams, since only a stream's own crate can make its seal.
    // The lease that is out, in exchange for the one in hand, which is used up.
    pub fn exchange(&self, hand: Option<Lease>) -> Option<Lease>
        ensures { handed result ≡ self.now.lending.out }
    {
        self.lending.exchange(hand, Seal(()))
    }
}
