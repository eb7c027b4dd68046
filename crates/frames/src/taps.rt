// A checked set of taps: at least one, at most 32, handed over together.
ghost use Rattle.std.specs.Prelude.{◌≤◌};

// An array with a count, and no Vec: a filter allocates nothing, and its taps are handed over by value.
#[derive(Clone, Copy)]
pub struct TapSet {
    pub(crate) taps: [i16; 32],
    pub(crate) count: usize,
    ghost some: { 1 ≤ count },
    ghost few: { count ≤ 32 },
}
