// Frames written into the leased area of a playback stream.
ghost use Rattle.std.specs.Result.{result_err};
ghost use Rattle.std.specs.Prelude.{◌≡◌, ◌+◌, ◌≤◌, length, OnOk};
ghost use Rattle.std.proofs.Math.Seq.{paste};
ghost use Rattle.frames.specs.Samples.{mixed_all};
ghost use Rattle.account.specs.Areas.{area};
ghost use Rattle.account.specs.Playback.{Puts, Mixes, no_access};
ghost use Rattle.playback.specs.PlaybackBook.{book_of};
ghost use Rattle.account.specs.Rules.{first_of};
ghost use Rattle.calls.specs.Told.{told};

use super::Playback;
use crate::lease::Lease;
use calls::elsewhere::check_length;
use calls::lease_parts::LeaseParts;
use calls::verdict::CallKind;
use codes::refusal::Refusal;
use frames::frame::Frame;
use frames::mix::mix_into;

// Writes the frames into the memory from a place on.
fn write(memory: &mut [Frame], place: usize, frames: &[Frame])
    requires { place + length frames.now ≤ length memory.old }
    ensures { memory.new ≡ paste memory.old place frames.now (length frames.now) }
{
    memory[place..place + frames.len()].copy_from_slice(frames);
}

// Mixes the frames into the memory from a place on.
fn blend(memory: &mut [Frame], place: usize, frames: &[Frame])
    requires { place + length frames.now ≤ length memory.old }
    ensures { memory.new ≡ paste memory.old place (mixed_all (area memory.old place (length frames.now)) frames.now) (length (mixed_all (area memory.old place (length frames.now)) frames.now)) }
{
    mix_into(&mut memory[place..place + frames.len()], frames);
}

// `put` and `mix` stay two calls: they differ in `write` and `blend`, and share the rest. Lease, position and frames are the call's
// own parameters.
impl Playback {
    // Frames may be written only into the area of the lease that is out.
    fn check_access(
        &self,
        memory: &[Frame],
        lease: LeaseParts,
        position: u32,
        count: usize,
    ) -> Result<(), Refusal>
        ensures answer { result_err result ≡ first_of (no_access (book_of self.now) memory.now lease position count) }
        ensures rule { OnOk result (lease.place + position + count ≤ length memory.now) }
    {
        check_length(memory, self.geometry.buffer())?;
        self.lending.check_holds(lease)?;
        self.decide(CallKind::Access)?;
        lease.check_within(position, count)
    }

    // Writes frames into the area of a lease that is given by its parts.
    pub(crate) fn put_by_parts(
        &self,
        memory: &mut [Frame],
        lease: LeaseParts,
        position: u32,
        frames: &[Frame],
    ) -> Result<(), Refusal>
        ensures { Puts (book_of self.now) memory.old lease position frames.now (told result) memory.new }
    {
        self.check_access(memory, lease, position, frames.len())?;
        write(memory, lease.place as usize + position as usize, frames);
        Ok(())
    }

    // Mixes frames into the area of a lease that is given by its parts.
    pub(crate) fn mix_by_parts(
        &self,
        memory: &mut [Frame],
        lease: LeaseParts,
        position: u32,
        frames: &[Frame],
    ) -> Result<(), Refusal>
        ensures { Mixes (book_of self.now) memory.old lease position frames.now (told result) memory.new }
    {
        self.check_access(memory, lease, position, frames.len())?;
        blend(memory, lease.place as usize + position as usize, frames);
        Ok(())
    }

    // Writes frames into the leased area, from a position in it on.
    pub fn put(
        &self,
        memory: &mut [Frame],
        lease: &Lease,
        position: u32,
        frames: &[Frame],
    ) -> Result<(), Refusal>
        ensures { Puts (book_of self.now) memory.old lease.now.parts position frames.now (told result) memory.new }
    {
        self.put_by_parts(memory, lease.parts(), position, frames)
    }

    // Mixes frames into the leased area, from a position in it on.
    pub fn mix(
        &self,
        memory: &mut [Frame],
        lease: &Lease,
        position: u32,
        frames: &[Frame],
    ) -> Result<(), Refusal>
        ensures { Mixes (book_of self.now) memory.old lease.now.parts position frames.now (told result) memory.new }
    {
        self.mix_by_parts(memory, lease.parts(), position, frames)
    }
}
