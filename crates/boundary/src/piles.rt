// Piles that a script is played onto, and what their tapes have heard.
use crate::header::Setup;
use crate::reading::Reader;
use frames::frame::Frame;
use sinks::byte_tape::ByteTape;
use sinks::fault::Fault;
use sinks::fir::Fir;
use sinks::frame_tape::FrameTape;
use sinks::gain::Gain;
use sinks::keep::Keep;
use sinks::layer::Layer;
use sinks::sink::Sink;
use std::alloc::{AllocError, Global};

// A tape, or a layer over a pile. It can be taken apart for the frames that its tape has heard.
pub trait Pile: Sink + Drop {
    fn heard(self, heap: Global) -> Result<Vec<Frame>, AllocError>;
}

impl Pile for ByteTape {
    fn heard(self, heap: Global) -> Result<Vec<Frame>, AllocError> {
        let mut frames = vec![in heap; Frame::default(); self.count()]?;
        let bytes = self.into_memory();
        let _ = Reader::new(&bytes).fill(&mut frames);
        Ok(frames)
    }
}

impl Pile for FrameTape {
    fn heard(self, _heap: Global) -> Result<Vec<Frame>, AllocError> {
        let count = self.count();
        let mut frames = self.into_memory();
        frames.truncate(count);
        Ok(frames)
    }
}

impl<D: Pile, E: Drop> Pile for Layer<D, E>
where
    Layer<D, E>: Sink,
{
    fn heard(self, heap: Global) -> Result<Vec<Frame>, AllocError> {
        self.into_below().heard(heap)
    }
}

// The tapes and the layers that a setup asks for.
impl Setup {
    pub fn byte_tape(&self, heap: Global) -> Result<ByteTape, AllocError> {
        Ok(ByteTape::new(vec![in heap; 0; self.room.saturating_mul(4)]?))
    }

    pub fn frame_tape(&self, heap: Global) -> Result<FrameTape, AllocError> {
        Ok(FrameTape::new(vec![in heap; Frame::default(); self.room]?))
    }

    pub fn fault<D: Pile>(&self, below: D) -> Fault<D> {
        Fault::new(below, self.marks)
    }

    pub fn gain<D: Pile>(&self, below: D) -> Gain<D> {
        Gain::new(below, self.gain)
    }

    pub fn filter<D: Pile>(&self, below: D) -> Fir<D> {
        Fir::new(below, self.taps)
    }

    pub fn keep<D: Pile>(&self, below: D) -> Keep<D> {
        Keep::new(below, self.factor)
    }
}
