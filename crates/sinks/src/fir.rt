// A finite impulse response filter over any sink. A heal leaves its earlier inputs as they are.
ghost use Rattle.std.specs.Prelude.{◌≡◌, List, []};
ghost use Rattle.frames.specs.declared.frame.Frame.{Frame as Moment};
ghost use Rattle.frames.specs.Filter.{filtered};
ghost use Rattle.frames.specs.Filters.{taps_of, makes_of, output_of, Pushed, weights, earlier_left, earlier_right};
ghost use Rattle.sinks.specs.Stops.{passed_up};
ghost use Rattle.sinks.specs.Rules.{lawful_chain, lawful_filter};

use crate::layer::Layer;
use crate::sink::Sink;
use crate::stop::Stop;
use frames::filter::Filter;
use frames::frame::Frame;
use frames::taps::TapSet;

pub type Fir<D> = Layer<D, Filter>;

impl<D: Sink> Fir<D> {
    pub fn new(below: D, taps: TapSet) -> Fir<D>
        ensures below { result.below ≡ below }
        ensures filter { (fs : List Moment) → makes_of result.effect fs ≡ filtered (taps_of taps) [] [] fs }
    {
        Layer {
            below,
            effect: Filter::new(taps),
        }
    }
}

impl<D: Sink> Sink for Fir<D> {
    ghost shows = { record {
      heard = λ s. D.Sink.shows.heard s.below;
      allowance = λ s. D.Sink.shows.allowance s.below;
      makes = λ s fs. D.Sink.shows.makes s.below (makes_of s.effect fs);
      stop = λ s. passed_up (D.Sink.shows.stop s.below);
      takes = λ s f t. D.Sink.shows.takes s.below (output_of s.effect f) t.below × Pushed s.effect f t.effect;
      healed = λ s t. D.Sink.shows.healed s.below t.below × (t.effect ≡ s.effect);
    } };

    ghost lawful = { λ s.
        lawful_chain (D.Sink.shows.makes s.below) (makes_of s.effect) (D.Sink.lawful s.below)
        (lawful_filter (weights s.effect) (earlier_left s.effect) (earlier_right s.effect)) };

    fn offer(&mut self, frame: Frame) -> Result<(), Stop> {
        self.below
            .offer(self.effect.output(frame))
            .map_err(Stop::passed_up)?;
        self.effect.push(frame);
        Ok(())
    }

    fn allowance(&self) -> u32 {
        self.below.allowance()
    }

    fn heal(&mut self) {
        self.below.heal();
    }
}
