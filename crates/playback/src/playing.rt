// Plays frames from a ring into a sink.
ghost use Rattle.ring.specs.Spans.{holds};
ghost use Rattle.std.specs.Prelude.{◌≡◌, ◌≤◌, length};
ghost use Rattle.playback.specs.Playing.{Plays};

use frames::frame::Frame;
use ring::span::Span;
use sinks::sink::Sink;
use sinks::stop::Stop;

// How many frames went, and why the sink took no more, if it stopped.
#[derive(Clone, Copy)]
pub(crate) struct Gone {
    pub went: u32,
    pub stop: Option<Stop>,
}

// Offers the oldest frames of the ring one by one, at most k of them. The ring itself is left as it is.
pub(crate) fn play<S: Sink>(sink: &mut S, span: &Span, memory: &[Frame], k: u32) -> Gone
    requires { length memory.now ≡ span.now.size }
    ensures { Plays S.Sink.shows sink.old (holds span.now memory.now) k result sink.new }
{
    for went in 0..k {
        let Some(frame) = span.element(memory, went) else {
            return Gone { went, stop: None };
        };
        if let Err(stop) = sink.offer(frame) {
            return Gone {
                went,
                stop: Some(stop),
            };
        }
    }
    Gone {
        went: k,
        stop: None,
    }
}
