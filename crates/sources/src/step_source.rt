// A source of samples that rise in equal steps, the same in both channels.
ghost use Rattle.std.specs.Prelude.{◌≡◌, ◌<◌};
ghost use Rattle.sources.specs.Stepping.{Advances, Stepped, step_points};

use crate::source::Source;
use frames::frame::Frame;

#[derive(Drop)]
pub struct StepSource {
    // how many frames are to come
    count: u32,
    // the sample of the next
    sample: i16,
    step: i16,
}

impl StepSource {
    // Frame i of n is v + i * d, wrapped to 16 bits.
    pub fn new(n: u32, v: i16, d: i16) -> StepSource
        ensures state { (result.count ≡ n) × (result.sample ≡ v) × (result.step ≡ d) }
        ensures elements { Stepped v d n (step_points.coming result) }
    {
        StepSource {
            count: n,
            sample: v,
            step: d,
        }
    }

    // What the sum has beyond 16 bits is lost.
    fn advance(&mut self)
        requires { 0 < self.old.count }
        ensures { Advances self.old self.new }
    {
        self.sample = self.sample.wrapping_add(self.step);
        self.count -= 1;
    }
}

impl Source for StepSource {
    ghost shows = { step_points };

    fn get(&mut self) -> Option<Frame> {
        if self.count == 0 {
            return None;
        }
        let frame = Frame {
            left: self.sample,
            right: self.sample,
        };
        self.advance();
        Some(frame)
    }
}

#[cfg(test)]
mod tests {
    use super::*;

    #[test]
    fn steps_wrap(rt: HostRuntime) {
        let mut source = StepSource::new(3, 32767, 1);
        assert_eq!(rt;
            source.get(),
            Some(Frame {
                left: 32767,
                right: 32767,
            })
        );
        assert_eq!(rt;
            source.get(),
            Some(Frame {
                left: -32768,
                right: -32768,
            })
        );
        assert_eq!(rt;
            source.get(),
            Some(Frame {
                left: -32767,
                right: -32767,
            })
        );
        assert_eq!(rt; source.get(), None);
    }
}
