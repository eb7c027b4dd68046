// The check of a factor, and which frames pass.
ghost use Rattle.std.specs.Prelude.{◌≡◌};
ghost use Rattle.frames.specs.Keepers.{CheckedFactor, Stepped};

use crate::factor::{Factor, Keeper};
use codes::refusal::Refusal;

impl Factor {
    // Named `check` as for taps, marks and geometries, and no TryFrom: of these only two are made of one value.
    pub fn check(every: u32) -> Result<Factor, Refusal>
        ensures { CheckedFactor every result }
    {
        if every == 0 || every > 8 {
            return Err(Refusal::Layer);
        }
        Ok(Factor { every })
    }
}

impl Keeper {
    // The first frame passes.
    pub fn new(factor: Factor) -> Keeper
        ensures { (result.factor ≡ factor) × (result.fall ≡ 0) }
    {
        Keeper { factor, fall: 0 }
    }

    pub fn every(&self) -> u32
        ensures { result ≡ self.now.factor.every }
    {
        self.factor.every
    }

    // How many frames fall before the next one passes.
    pub fn fall(&self) -> u32
        ensures { result ≡ self.now.fall }
    {
        self.fall
    }

    // One frame went by.
    pub fn step(&mut self)
        ensures { Stepped self.old self.new }
    {
        if self.fall == 0 {
            self.fall = self.factor.every - 1;
        } else {
            self.fall -= 1;
        }
    }
}
