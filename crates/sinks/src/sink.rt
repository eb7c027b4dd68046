// What a sink is.
ghost use Rattle.std.specs.Prelude.{◌≡◌};
ghost use Rattle.sinks.specs.Making.{Lawful};
ghost use Rattle.sinks.specs.Sink.{SinkPoints, Answers, Heals};

use crate::stop::Stop;
use frames::frame::Frame;

pub trait Sink {
    // what it shows of itself
    ghost shows: { SinkPoints Self };

    // Takes one frame, or refuses it, exactly where the allowance is 0.
    fn offer(&mut self, frame: Frame) -> Result<(), Stop>
        ensures { Answers shows self.old frame result self.new };

    // How many frames it takes for certain.
    fn allowance(&self) -> u32
        ensures { result ≡ shows.allowance self.now };

    // May give it more allowance or another cause to stop, and changes nothing else that it shows.
    fn heal(&mut self)
        ensures { Heals shows self.old self.new };

    // to take a list in two goes brings out the same as to take it in one, and an empty list brings out nothing
    ghost lawful: { (s : Self) → Lawful (shows.makes s) };
}
