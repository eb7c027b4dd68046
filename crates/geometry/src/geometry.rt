// The numbers of a stream, and the rules that they keep.
ghost use Rattle.std.specs.Prelude.{◌≡◌};
ghost use Rattle.geometry.specs.Boundary.{boundary_for};
ghost use Rattle.geometry.specs.Rules.{Lawful, Wraps};

mod checks;
pub mod laws;
mod numbers;
mod pointers;

// Counts of frames: the buffer, the period, and the start threshold. The ledger's size is a count of entries,
// the tag is any number, and the boundary is where pointers wrap.
#[derive(Clone, Copy)]
pub struct Geometry {
    buffer: u32,
    period: u32,
    threshold: u32,
    ledger: u32,
    tag: u32,
    boundary: u32,
    ghost lawful: { Lawful buffer period threshold ledger },
    ghost doubled: { boundary ≡ boundary_for buffer },
    ghost wraps: { Wraps buffer boundary },
}
