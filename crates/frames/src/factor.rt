// A checked factor: of every so many frames, 1 to 8, one is kept. And the place that a layer has come to.
ghost use Rattle.std.specs.Prelude.{◌<◌, ◌≤◌};

#[derive(Clone, Copy)]
pub struct Factor {
    pub(crate) every: u32,
    ghost least: { 1 ≤ every },
    ghost most: { every ≤ 8 },
}

#[derive(Clone, Copy)]
pub struct Keeper {
    pub(crate) factor: Factor,
    // how many frames fall before the next one passes
    pub(crate) fall: u32,
    ghost within: { fall < factor.every },
}
