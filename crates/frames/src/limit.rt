// What lies outside 16 bits becomes the nearest number inside.
ghost use Rattle.std.specs.Prelude.{◌≡◌};
ghost use Rattle.frames.specs.Samples.{limited};

pub fn limit(sum: i64) -> i16
    ensures { result ≡ limited sum }
{
    sum.clamp(-32768, 32767) as i16
}
