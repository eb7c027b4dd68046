// What a source is.
ghost use Rattle.sources.specs.Source.{SourcePoints, Gets};

use frames::frame::Frame;

pub trait Source {
    // the frames still to come, and how it is after it gave one up
    ghost shows: { SourcePoints Self };

    fn get(&mut self) -> Option<Frame>
        ensures { Gets shows self.old result self.new };
}
