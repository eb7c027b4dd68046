// Gain over any sink: each sample times q / 256.
ghost use Rattle.std.specs.Prelude.{◌≡◌};
ghost use Rattle.frames.specs.Samples.{gained_all, gained};
ghost use Rattle.sinks.specs.Stops.{passed_up};
ghost use Rattle.sinks.specs.Rules.{lawful_chain, lawful_gain};

use crate::layer::Layer;
use crate::sink::Sink;
use crate::stop::Stop;
use frames::frame::Frame;

// Gain by q / 256.
#[derive(Clone, Copy)]
pub struct Volume {
    q: u16,
}

pub type Gain<D> = Layer<D, Volume>;

impl<D: Sink> Gain<D> {
    pub fn new(below: D, q: u16) -> Gain<D>
        ensures { (result.below ≡ below) × (result.effect.q ≡ q) }
    {
        Layer {
            below,
            effect: Volume { q },
        }
    }
}

impl<D: Sink> Sink for Gain<D> {
    ghost shows = { record {
      heard = λ s. D.Sink.shows.heard s.below;
      allowance = λ s. D.Sink.shows.allowance s.below;
      makes = λ s fs. D.Sink.shows.makes s.below (gained_all s.effect.q fs);
      stop = λ s. passed_up (D.Sink.shows.stop s.below);
      takes = λ s f t. D.Sink.shows.takes s.below (gained s.effect.q f) t.below × (t.effect.q ≡ s.effect.q);
      healed = λ s t. D.Sink.shows.healed s.below t.below × (t.effect.q ≡ s.effect.q);
    } };

    ghost lawful = { λ s. lawful_chain (D.Sink.shows.makes s.below) (gained_all s.effect.q) (D.Sink.lawful s.below) (lawful_gain s.effect.q) };

    fn offer(&mut self, frame: Frame) -> Result<(), Stop> {
        self.below
            .offer(frame.gain(self.effect.q))
            .map_err(Stop::passed_up)
    }

    fn allowance(&self) -> u32 {
        self.below.allowance()
    }

    fn heal(&mut self) {
        self.below.heal();
    }
}
