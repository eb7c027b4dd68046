// A playback stream: frames are committed lease by lease, wait in the ring, and are played tick by tick.
ghost use Rattle.std.specs.Prelude.{◌≡◌, ◌+◌, ◌-◌, ◌%◌, ◌^◌, ◌<◌, ◌≤◌, Some};
ghost use Rattle.calls.specs.declared.lease_parts.LeaseParts.{LeaseParts};
ghost use Rattle.account.specs.Areas.{Inside};

use calls::lease_parts::Lending;
use codes::state::State;
use geometry::geometry::Geometry;
use ring::span::Span;

mod advancing;
mod deciding;
mod elsewhere;
mod emptying;
mod leasing;
mod questions;
mod taking;
mod ticking;
mod turning;
mod writing;

// It holds numbers only; frame memory, ledger memory and sink are lent to each call that takes them.
// Contracts see it by `book_of` and not by a model: those of its private functions also name what the book leaves out, its spans.
#[derive(Drop)]
pub struct Playback {
    geometry: Geometry,
    state: State,
    // the count committed, and the number of the oldest waiting frame
    committed: u32,
    oldest: u32,
    lending: Lending,
    frames: Span,
    ledger: Span,
    ghost widths: { (committed < 2 ^ 32) × (oldest < 2 ^ 32) × (lending.granted < 2 ^ 32) },
    ghost ordered: { (oldest ≤ committed) × (committed ≤ oldest + geometry.buffer) },
    ghost ring: { (frames.size ≡ geometry.buffer) × (frames.oldest ≡ oldest % geometry.buffer) × (frames.count ≡ committed - oldest) },
    ghost entries: { ledger.size ≡ geometry.ledger },
    ghost area: { (l : LeaseParts) → lending.out ≡ Some l → Inside l geometry.buffer committed (oldest + geometry.buffer) },
}
