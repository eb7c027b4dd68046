// A fault layer over any sink: it stops when the frames taken come to the next of its marks.
ghost use Rattle.std.specs.Prelude.{◌≡◌};
ghost use Rattle.sinks.specs.Marks.{capped, stops, Counted, Lifted};

use crate::layer::Layer;
use crate::marks::Marks;
use crate::sink::Sink;
use crate::stop::Stop;
use codes::cause::FAULT;
use frames::frame::Frame;

pub type Fault<D> = Layer<D, Marks>;

impl<D: Sink> Fault<D> {
    pub fn new(below: D, marks: Marks) -> Fault<D>
        ensures { (result.below ≡ below) × (result.effect ≡ marks) }
    {
        Layer {
            below,
            effect: marks,
        }
    }
}

impl<D: Sink> Sink for Fault<D> {
    ghost shows = { record {
      heard = λ s. D.Sink.shows.heard s.below;
      allowance = λ s. capped s.effect (D.Sink.shows.allowance s.below);
      makes = λ s. D.Sink.shows.makes s.below;
      stop = λ s. stops s.effect (D.Sink.shows.stop s.below);
      takes = λ s f t. D.Sink.shows.takes s.below f t.below × Counted s.effect t.effect;
      healed = λ s t. D.Sink.shows.healed s.below t.below × Lifted s.effect t.effect;
    } };

    ghost lawful = { λ s. D.Sink.lawful s.below };

    fn offer(&mut self, frame: Frame) -> Result<(), Stop> {
        if self.effect.stands() {
            return Err(Stop {
                cause: FAULT,
                depth: 0,
            });
        }
        self.below.offer(frame).map_err(Stop::passed_up)?;
        self.effect.count();
        Ok(())
    }

    fn allowance(&self) -> u32 {
        self.effect.cap(self.below.allowance())
    }

    fn heal(&mut self) {
        self.effect.lift();
        self.below.heal();
    }
}
