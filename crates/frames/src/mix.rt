// Mixing: the sum of two frames, each channel limited to 16 bits.
ghost use Rattle.std.specs.Prelude.{◌≡◌, ◌<◌, length, slice_index_or, slice_set};
ghost use Rattle.frames.specs.Samples.{mixed_sample, mixed, mixed_all, silence};

use crate::frame::Frame;
use crate::limit::limit;

fn mix_sample(a: i16, b: i16) -> i16
    ensures { result ≡ mixed_sample a b }
{
    limit(a as i64 + b as i64)
}

impl Frame {
    pub fn mix(self, other: Frame) -> Frame
        ensures { result ≡ mixed self other }
    {
        Frame {
            left: mix_sample(self.left, other.left),
            right: mix_sample(self.right, other.right),
        }
    }
}

// Mixes the frames into the area from its start. What one of the two has beyond the other is left alone.
pub fn mix_into(area: &mut [Frame], frames: &[Frame])
    ensures { area.new ≡ mixed_all area.old frames.now }
{
    for (i, place) in area.iter_mut().enumerate() {
        let Some(frame) = frames.get(i) else {
            return;
        };
        *place = place.mix(*frame);
    }
}
