// A lease on an area of a stream's ring. Only its stream ends it: a program that lets one go is turned away.
ghost use Rattle.std.specs.Prelude.{◌≡◌};
ghost use Rattle.calls.specs.Told.{handed, told_lease};

use crate::answer::{Answer, Outcome};
use crate::lease_parts::{LeaseParts, Lending};
use codes::refusal::Refusal;

// A lease under a seal: only who can make the seal makes leases and ends them. It has no `Drop`, so it cannot be let go.
pub struct Lease<K: Copy> {
    parts: LeaseParts,
    seal: K,
}

impl<K: Copy> Lease<K> {
    pub fn new(parts: LeaseParts, seal: K) -> Lease<K>
        ensures parts { result.parts ≡ parts }
        ensures seal { result.seal ≡ seal }
    {
        Lease { parts, seal }
    }

    pub fn parts(&self) -> LeaseParts
        ensures { result ≡ self.now.parts }
    {
        self.parts
    }

    // Ends the lease, by the seal under which it was made.
    pub fn end(self, _seal: K) -> LeaseParts
        ensures { result ≡ self.parts }
    {
        let Lease { parts, seal: _ } = self;
        parts
    }
}

// Not a `From`, since a lease is ended under its seal.
// What a begin answered, told as data.
pub fn tell_lease<K: Copy>(r: Result<Lease<K>, Refusal>, seal: K) -> Answer
    ensures { result ≡ told_lease r }
{
    Ok(Outcome::Granted(r?.end(seal)))
}

// The lease that has these parts, if there are any.
pub fn lease_of<K: Copy>(parts: Option<LeaseParts>, seal: K) -> Option<Lease<K>>
    ensures { handed result ≡ parts }
{
    Some(Lease::new(parts?, seal))
}

// Ends the lease in hand, if there is one.
pub fn end_lease<K: Copy>(hand: Option<Lease<K>>, seal: K) -> Option<LeaseParts>
    ensures { result ≡ handed hand }
{
    Some(hand?.end(seal))
}

impl Lending {
    // The lease that is out, in exchange for the one in hand, which is used up.
    pub fn exchange<K: Copy>(&self, hand: Option<Lease<K>>, seal: K) -> Option<Lease<K>>
        ensures { handed result ≡ self.now.out }
    {
        let _ = end_lease(hand, seal);
        lease_of(self.out, seal)
    }
}

// What a call answered, and the lease that is out after it.
pub struct Tried<K: Copy> {
    pub answer: Answer,
    pub lease: Option<Lease<K>>,
}
