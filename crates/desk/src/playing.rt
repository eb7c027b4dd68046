// Plays frames into a sink that may stop, heals it and goes on.
ghost use Rattle.std.specs.Prelude.{◌≤◌, length, take, IfOk};
ghost use Rattle.sinks.specs.Sink.{Took};

use frames::frame::Frame;
use sinks::feed::offer_all;
use sinks::sink::Sink;
use sinks::stop::Stop;
use std::alloc::AllocError;

// A stop of the sink, after so many frames in all, and whether healing let it go on.
#[derive(Clone, Copy)]
pub struct Halt {
    pub after: usize,
    pub stop: Stop,
    pub went_on: bool,
}

// Offers the frames in order. Where the sink stops it is healed, until that does not help; at most 16 marks can be
// healed. Answers how many frames were played.
pub fn play<S: Sink>(
    sink: &mut S,
    frames: &[Frame],
    halts: &mut Vec<Halt>,
) -> Result<usize, AllocError>
    ensures { IfOk result (λ n. (n ≤ length frames.now) × Took S.Sink.shows sink.old (take n frames.now) sink.new) }
{
    let mut played = 0;
    for _ in 0..17 {
        let fed = offer_all(sink, &frames[played..]);
        played += fed.taken;
        let Some(stop) = fed.stop else {
            break;
        };
        sink.heal();
        let went_on = sink.allowance() > 0;
        halts.push(Halt {
            after: played,
            stop,
            went_on,
        })?;
        if !went_on {
            break;
        }
    }
    Ok(played)
}
