// Gain: each sample times q / 256, rounded down and limited to 16 bits.
ghost use Rattle.std.specs.Prelude.{◌≡◌};
ghost use Rattle.frames.specs.Samples.{gained_sample, gained};

use crate::frame::Frame;
use crate::limit::limit;

fn gain_sample(sample: i16, q: u16) -> i16
    ensures { result ≡ gained_sample q sample }
{
    limit((sample as i64 * q as i64) >> 8)
}

impl Frame {
    // Each channel is written out, here, in a mix and in a filter: what they take of a channel differs, and a method for
    // each that takes the sum as a closure would be longer than the pair.
    pub fn gain(self, q: u16) -> Frame
        ensures { result ≡ gained q self }
    {
        Frame {
            left: gain_sample(self.left, q),
            right: gain_sample(self.right, q),
        }
    }
}
