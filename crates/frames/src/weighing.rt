// The weighted sum of a filter, over as many products each time.
ghost use Rattle.std.specs.Prelude.{◌≡◌, ◌*◌, ◌^◌, ◌<◌, ◌≤◌, ◌∷◌, length, pos, ◌+ℤ◌, ◌*ℤ◌, unsigned_abs};
ghost use Rattle.frames.specs.Filter.{weighted, filtered_sample};
ghost use Rattle.frames.specs.Filters.{weights};
ghost use Rattle.frames.specs.Mirror.{recent};
ghost use Rattle.frames.specs.Samples.{floor_div, limited};

use crate::filter::Filter;
use crate::limit::limit;

fn product(tap: i16, sample: i16) -> i64
    ensures value { result ≡ tap *ℤ sample }
    ensures bound { unsigned_abs result ≤ 2 ^ 30 }
{
    tap as i64 * sample as i64
}

// The sum over 32 taps and as many samples.
fn weigh(taps: &[i16; 32], samples: &[i16]) -> i64
    requires { length samples.now ≡ 32 }
    ensures value { result ≡ weighted taps.now samples.now }
    ensures bound { unsigned_abs result ≤ 32 * 2 ^ 30 }
{
    let mut sum: i64 = 0;
    for (tap, sample) in taps.iter().zip(samples) {
        sum += product(*tap, *sample);
    }
    sum
}

// Half a step is added, so that the shift rounds to the nearest.
fn round(sum: i64) -> i16
    requires { unsigned_abs sum ≤ 33 * 2 ^ 30 }
    ensures { result ≡ limited (floor_div (sum +ℤ pos 16384) 32768) }
{
    limit((sum + 16384) >> 15)
}

impl Filter {
    // The sample that comes out of a channel where `input` goes in, after those that the line holds of it.
    pub(crate) fn sample(&self, input: i16, channel: &[i16; 64]) -> i16
        ensures { result ≡ filtered_sample (weights self.now) (input ∷ recent self.now.line.newest channel.now) }
    {
        let newest = self.line.newest;
        round(product(self.first, input) + weigh(&self.later, &channel[newest..newest + 32]))
    }
}
