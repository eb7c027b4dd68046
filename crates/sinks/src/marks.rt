// The marks of a fault layer: at most 16, strictly rising. An array with a count, and no Vec: a layer allocates nothing,
// and its marks are handed over by value.
ghost use Rattle.std.specs.Prelude.{◌<◌, ◌≤◌, slice_index};
ghost use Rattle.sinks.specs.Rising.{RisesTo};

#[derive(Clone, Copy)]
pub struct Marks {
    pub(crate) at: [u32; 16],
    // the marks before `next` are removed, and those from `end` on are none
    pub(crate) next: usize,
    pub(crate) end: usize,
    pub(crate) taken: u32,
    ghost few: { end ≤ 16 },
    ghost rising: { RisesTo at end },
    ghost ahead: { (next < end → taken ≤ slice_index at next) },
}
