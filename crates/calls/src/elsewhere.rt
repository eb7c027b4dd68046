// Memory as long as a stream's own, and memory of another length, for calls that are to be refused by it.
ghost use Rattle.std.specs.Prelude.{◌≡◌, ◌<◌, ◌≤◌, ◌≢◌, ◌==◌, not, length, if◌then◌else◌, nat_eq, OnOk, take};
ghost use Rattle.codes.specs.declared.refusal.Refusal.TheVariants.{Memory};
ghost use Rattle.calls.specs.Checks.{refused_if, IsGiven};
ghost use Rattle.calls.specs.declared.call.Given.TheVariants.{Another};

use crate::call::Given;
use crate::entry::Entry;
use codes::refusal::Refusal;
use frames::frame::Frame;

// Memory of another length is refused. What runs after this check asks for the length again in a `requires`: a type for checked
// memory would be made anew in each call.
pub fn check_length<T>(memory: &[T], size: u32) -> Result<(), Refusal>
    ensures answer { result ≡ refused_if (not (length memory.now == size)) Memory }
    ensures fits { OnOk result (length memory.now ≡ size) }
{
    if memory.len() != size as usize {
        return Err(Refusal::Memory);
    }
    Ok(())
}

// How much of a spare memory is to be handed to a call, so that it is not as long as the stream's own.
pub fn another_length(spare: usize, own: u32) -> usize
    ensures answer { result ≡ (if nat_eq spare own then 0 else spare) }
    ensures within { result ≤ spare }
    ensures another { 0 < own → result ≢ own }
{
    if spare == own as usize { 0 } else { spare }
}

// The memory that a call reads: the stream's own, or a part of the spare one that is not as long.
pub fn given_memory<'a, T>(given: Given, own: &'a [T], spare: &'a [T], size: u32) -> &'a [T]
    ensures given { IsGiven given own.now size result.now }
    ensures part { given ≡ Another → result.now ≡ take (if nat_eq (length spare.now) size then 0 else length spare.now) spare.now }
{
    match given {
        Given::Own => own,
        Given::Another => &spare[..another_length(spare.len(), size)],
    }
}

// Spare memory, for calls that are to be given memory of another length than a stream's own.
#[derive(Drop)]
pub struct Spare<'frames, 'ledger> {
    pub frames: &'frames mut [Frame],
    pub ledger: &'ledger mut [Entry],
}
