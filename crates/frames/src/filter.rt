// A filter: its taps and the inputs that they still weigh.
ghost use Rattle.std.specs.Prelude.{◌<◌};
ghost use Rattle.frames.specs.Mirror.{Mirrored};

// The last 32 inputs of each channel, the newest at `newest` and older ones behind it. Each stands twice, 32 places
// apart, so that they can be read without a break wherever the newest stands, and an input moves nothing else. Arrays,
// since a filter allocates nothing, and one for each channel, so that the samples of a sum lie together.
#[derive(Clone, Copy)]
pub struct DelayLine {
    pub(crate) left: [i16; 64],
    pub(crate) right: [i16; 64],
    pub(crate) newest: usize,
    ghost within: { newest < 32 },
    ghost twice: { Mirrored left × Mirrored right },
}

// The taps behind the first are filled up with 0, so that every sum runs over as many products.
#[derive(Clone, Copy)]
pub struct Filter {
    pub(crate) first: i16,
    pub(crate) later: [i16; 32],
    pub(crate) line: DelayLine,
}
