// A capture stream: frames come from a source tick by tick, wait in the ring, and are read lease by lease.
ghost use Rattle.std.specs.Prelude.{◌≡◌, ◌+◌, ◌%◌, ◌^◌, ◌<◌, ◌≤◌, Some};
ghost use Rattle.calls.specs.declared.lease_parts.LeaseParts.{LeaseParts};
ghost use Rattle.account.specs.Areas.{Inside};

use calls::lease_parts::Lending;
use codes::state::State;
use geometry::geometry::Geometry;
use ring::span::Span;

mod copying;
mod deciding;
mod elsewhere;
mod emptying;
mod leasing;
mod questions;
mod taking;
mod ticking;
mod turning;

// It holds numbers only; frame memory, ledger memory and source are lent to each call that takes them.
// Contracts see it by `book_of` and not by a model: those of its private functions also name what the book leaves out, its spans.
#[derive(Drop)]
pub struct Capture {
    geometry: Geometry,
    state: State,
    // the count that the source gave up, the number of the oldest unread frame, and how many are unread
    given: u32,
    oldest: u32,
    unread: u32,
    lending: Lending,
    frames: Span,
    ledger: Span,
    ghost widths: { (given < 2 ^ 32) × (lending.granted < 2 ^ 32) },
    ghost ordered: { (oldest + unread ≤ given) × (unread ≤ geometry.buffer) },
    ghost ring: { (frames.size ≡ geometry.buffer) × (frames.oldest ≡ oldest % geometry.buffer) × (frames.count ≡ unread) },
    ghost entries: { ledger.size ≡ geometry.ledger },
    ghost area: { (l : LeaseParts) → lending.out ≡ Some l → Inside l geometry.buffer oldest (oldest + unread) },
}
