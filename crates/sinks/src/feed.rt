// Offers a list of frames to any sink.
ghost use Rattle.sinks.specs.Feeds.{Feeds};

use crate::sink::Sink;
use crate::stop::Stop;
use frames::frame::Frame;

// How many frames a sink took, and why it took no more, if it did not take all.
#[derive(Clone, Copy)]
pub struct Fed {
    pub taken: usize,
    pub stop: Option<Stop>,
}

// Offers the frames one by one until none is left or one is refused.
pub fn offer_all<S: Sink>(sink: &mut S, frames: &[Frame]) -> Fed
    ensures { Feeds S.Sink.shows sink.old frames.now result sink.new }
{
    for (i, frame) in frames.iter().enumerate() {
        if let Err(stop) = sink.offer(*frame) {
            return Fed {
                taken: i,
                stop: Some(stop),
            };
        }
    }
    Fed {
        taken: frames.len(),
        stop: None,
    }
}
