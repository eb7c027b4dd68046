// Keeps every M-th frame and lets the others fall, over any sink.
ghost use Rattle.std.specs.Prelude.{◌≡◌};
ghost use Rattle.frames.specs.Keepers.{passing, Stepped};
ghost use Rattle.sinks.specs.Keeps.{keep_allowance, TakesBelow};
ghost use Rattle.sinks.specs.Stops.{passed_up};
ghost use Rattle.sinks.specs.Rules.{lawful_chain, lawful_keep};

use crate::layer::Layer;
use crate::sink::Sink;
use crate::stop::Stop;
use frames::factor::{Factor, Keeper};
use frames::frame::Frame;

pub type Keep<D> = Layer<D, Keeper>;

impl<D: Sink> Keep<D> {
    pub fn new(below: D, factor: Factor) -> Keep<D>
        ensures { (result.below ≡ below) × (result.effect.factor ≡ factor) × (result.effect.fall ≡ 0) }
    {
        Layer {
            below,
            effect: Keeper::new(factor),
        }
    }
}

impl<D: Sink> Sink for Keep<D> {
    ghost shows = { record {
      heard = λ s. D.Sink.shows.heard s.below;
      allowance = λ s. keep_allowance (D.Sink.shows.allowance s.below) s.effect.factor.every s.effect.fall;
      makes = λ s fs. D.Sink.shows.makes s.below (passing s.effect fs);
      stop = λ s. passed_up (D.Sink.shows.stop s.below);
      takes = λ s f t. TakesBelow D.Sink.shows.takes s.effect.fall s.below f t.below × Stepped s.effect t.effect;
      healed = λ s t. D.Sink.shows.healed s.below t.below × (t.effect ≡ s.effect);
    } };

    ghost lawful = { λ s. lawful_chain (D.Sink.shows.makes s.below) (passing s.effect) (D.Sink.lawful s.below) (lawful_keep s.effect.factor.every s.effect.fall) };

    fn offer(&mut self, frame: Frame) -> Result<(), Stop> {
        if self.effect.fall() > 0 {
            self.effect.step();
            return Ok(());
        }
        self.below.offer(frame).map_err(Stop::passed_up)?;
        self.effect.step();
        Ok(())
    }

    fn allowance(&self) -> u32 {
        self.below
            .allowance()
            .saturating_mul(self.effect.every())
            .saturating_add(self.effect.fall())
    }

    fn heal(&mut self) {
        self.below.heal();
    }
}
