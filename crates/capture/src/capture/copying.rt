// Frames copied out of the leased area of a capture stream.
ghost use Rattle.std.specs.Prelude.{◌≡◌, ◌+◌, ◌≤◌, length};
ghost use Rattle.account.specs.Areas.{area};
ghost use Rattle.account.specs.Capture.{Copies};
ghost use Rattle.capture.specs.CaptureBook.{book_of};
ghost use Rattle.capture.specs.Copies.{CopiesAsGiven, CopiesInto};
ghost use Rattle.calls.specs.Told.{told};

use super::Capture;
use crate::lease::Lease;
use calls::answer::{Answer, Outcome};
use calls::call::Given;
use calls::elsewhere::{check_length, given_memory};
use calls::lease_parts::LeaseParts;
use calls::verdict::CallKind;
use codes::refusal::Refusal;
use frames::frame::Frame;

// Fills the host's memory with the frames of a memory from a place on.
fn fill(host: &mut [Frame], memory: &[Frame], place: usize)
    requires { place + length host.old ≤ length memory.now }
    ensures { host.new ≡ area memory.now place (length host.old) }
{
    let end = place + host.len();
    host.copy_from_slice(&memory[place..end]);
}

impl Capture {
    // Fills the host's memory with frames of the area of a lease that is given by its parts. Lease and position are the call's own.
    pub(crate) fn copy_by_parts(
        &self,
        memory: &[Frame],
        lease: LeaseParts,
        position: u32,
        host: &mut [Frame],
    ) -> Result<(), Refusal>
        ensures { Copies (book_of self.now) memory.now lease position host.old (told result) host.new }
    {
        check_length(memory, self.geometry.buffer())?;
        self.check_lends(lease)?;
        self.decide(CallKind::Access)?;
        lease.check_within(position, host.len())?;
        fill(host, memory, lease.place as usize + position as usize);
        Ok(())
    }

    // Fills the host's memory with frames of the leased area, from a position in it on.
    pub fn copy(
        &self,
        memory: &[Frame],
        lease: &Lease,
        position: u32,
        host: &mut [Frame],
    ) -> Result<(), Refusal>
        ensures { Copies (book_of self.now) memory.now lease.now.parts position host.old (told result) host.new }
    {
        self.copy_by_parts(memory, lease.parts(), position, host)
    }

    // The parameters of these two are those of the call as data.
    // Copies into the n places of the host's memory from place x on, as far as that memory goes.
    fn copy_part(
        &self,
        memory: &[Frame],
        parts: LeaseParts,
        position: u32,
        host: &mut [Frame],
        x: u32,
        n: u32,
    ) -> Answer
        ensures { CopiesInto (book_of self.now) memory.now parts position host.old x n result host.new }
    {
        let from = host.len().min(x as usize);
        let end = host.len().min(x as usize + n as usize);
        self.copy_by_parts(memory, parts, position, &mut host[from..end])
            .map(Outcome::from)
    }

    // The same from the memory that the call is given.
    pub(crate) fn copy_given(
        &self,
        given: Given,
        memory: &[Frame],
        spare: &[Frame],
        parts: LeaseParts,
        position: u32,
        host: &mut [Frame],
        x: u32,
        n: u32,
    ) -> Answer
        ensures { CopiesAsGiven given (book_of self.now) memory.now parts position host.old x n result host.new }
    {
        let memory = given_memory(given, memory, spare, self.geometry.buffer());
        self.copy_part(memory, parts, position, host, x, n)
    }
}
