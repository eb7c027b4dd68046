// The leases of playback streams.
use calls::lease;

// Only this crate can make a seal, so only it makes these leases and ends them. One seal for both streams would let each end
// the leases of the other.
#[derive(Clone, Copy)]
pub struct Seal(pub(crate) ());

pub type Lease = lease::Lease<Seal>;
