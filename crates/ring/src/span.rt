// Where the elements of a ring lie in its memory.
ghost use Rattle.std.specs.Prelude.{◌^◌, ◌<◌, ◌≤◌};

mod elements;
mod moves;
mod numbers;
mod places;

// Numbers only, so that their owner can keep them while the memory is lent to each call.
#[derive(Clone, Copy)]
pub struct Span {
    size: u32,
    oldest: u32,
    count: u32,
    ghost within: { (oldest < size) × (count ≤ size) × (size < 2 ^ 32) },
}
