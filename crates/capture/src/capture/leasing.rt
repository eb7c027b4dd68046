// Leases on the unread frames of a capture stream, granted and ended.
ghost use Rattle.std.specs.Prelude.{◌≡◌, ◌+◌, ◌≤◌, not, None, OnOk};
ghost use Rattle.codes.specs.declared.refusal.Refusal.TheVariants.{WrongLease};
ghost use Rattle.calls.specs.Checks.{refused_if};
ghost use Rattle.calls.specs.Lending.{holds};
ghost use Rattle.account.specs.Areas.{Inside};
ghost use Rattle.account.specs.Capture.{Begins, Commits, drained, read};
ghost use Rattle.capture.specs.CaptureBook.{book_of};
ghost use Rattle.calls.specs.Told.{told, told_lease, handed};

use super::Capture;
use crate::lease::{Lease, Seal};
use calls::lease_parts::LeaseParts;
use calls::verdict::CallKind;
use codes::refusal::Refusal;
use codes::state::State;

impl Capture {
    // The next lease, on unread frames from the oldest on, as far as the ring goes on.
    pub fn begin(&mut self, wanted: u32) -> Result<Lease, Refusal>
        ensures { Begins (book_of self.old) wanted (told_lease result) (book_of self.new) }
    {
        self.lending.check_none_out()?;
        self.decide(CallKind::Begin)?;
        if wanted == 0 {
            return Err(Refusal::Zero);
        }
        if self.unread == 0 {
            return Err(Refusal::Unavailable);
        }
        let place = self.geometry.place(self.oldest);
        let length = self.geometry.area(wanted, self.unread, place);
        let tag = self.geometry.tag();
        let parts = self.lending.grant(tag, place, length)?;
        Ok(Lease::new(parts, Seal(())))
    }

    // Only the lease that is out will do. Its area has unread frames only.
    pub(crate) fn check_lends(&self, lease: LeaseParts) -> Result<(), Refusal>
        ensures answer { result ≡ refused_if (not (holds self.now.lending.out lease)) WrongLease }
        ensures rule { OnOk result (Inside lease self.now.geometry.buffer self.now.oldest (self.now.oldest + self.now.unread)) }
    {
        self.lending.check_holds(lease)
    }

    // The state once n frames fewer are unread: a draining stream is set up again once none is.
    fn drained(&self, n: u32) -> State
        requires { n ≤ self.now.unread }
        ensures { result ≡ drained (book_of self.now) n }
    {
        match self.state {
            State::Draining if self.unread == n => State::Setup,
            state => state,
        }
    }

    // The n oldest frames were read.
    fn read(&mut self, n: u32)
        requires unread { n ≤ self.old.unread }
        requires lease { self.old.lending.out ≡ None }
        ensures { book_of self.new ≡ read (book_of self.old) n }
    {
        self.state = self.drained(n);
        self.frames.free(n).unwrap();
        self.oldest += n;
        self.unread -= n;
    }

    // Ends the lease, and frees the first n frames of its area.
    pub fn commit(&mut self, lease: Lease, n: u32) -> Result<(), Refusal>
        ensures { Commits (book_of self.old) lease.parts n (told result) (book_of self.new) }
    {
        let parts = lease.end(Seal(()));
        self.check_lends(parts)?;
        if let Err(why) = self.decide(CallKind::Commit) {
            // In XRUN the lease has ended all the same.
            if let State::Xrun = self.state {
                self.lending.out = None;
            }
            return Err(why);
        }
        self.lending.out = None;
        parts.check_within(0, n as usize)?;
        self.read(n);
        Ok(())
    }

    // One line in both streams, since only a stream's own crate can make its seal.
    // The lease that is out, in exchange for the one in hand, which is used up.
    pub fn exchange(&self, hand: Option<Lease>) -> Option<Lease>
        ensures { handed result ≡ self.now.lending.out }
    {
        self.lending.exchange(hand, Seal(()))
    }
}
