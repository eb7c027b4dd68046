// A tape over memory that it is given and gives back, whichever way the memory holds frames.
ghost use Rattle.std.specs.Prelude.{◌≡◌, ℕ, ◌+◌, ◌-◌, ◌<◌, List, [], ◌∷◌, ◌++◌};
ghost use Rattle.frames.specs.declared.frame.Frame.{Frame as Moment};
ghost use Rattle.sinks.specs.Stops.{full};
ghost use Rattle.sinks.specs.Tapes.{holds};
ghost use Rattle.sinks.specs.Rules.{lawful_same};

use crate::sink::Sink;
use crate::stop::Stop;
use codes::cause::FULL;
use frames::frame::Frame;

// Memory in which frames stand one after the other.
pub trait Memory {
    // how many frames it has room for
    ghost places: { Self → ℕ };

    // the first so many frames that stand in it
    ghost first: { Self → ℕ → List Moment };

    // exactly how it is once a frame was written at a place
    ghost writes: { Self → ℕ → Moment → Self → Type 0 };

    fn room(&self) -> usize
        ensures { result ≡ places self.now };

    fn write(&mut self, at: usize, frame: Frame)
        requires { at < places self.old }
        ensures writes { writes self.old at frame self.new }
        ensures places { places self.new ≡ places self.old }
        // written behind the first ones, it is one more of them
        ensures one_more { first self.new (at + 1) ≡ first self.old at ++ frame ∷ [] };

    // in new memory no frame stands yet
    ghost empty: { (m : Self) → first m 0 ≡ [] };
}

// The memory is given back whole, so the place where it goes on stands beside it.
#[derive(Drop)]
pub struct Tape<M: Memory> {
    memory: M,
    count: usize,
}

impl<M: Memory> Tape<M> {
    // A tape with nothing on it yet, that writes from the memory's start.
    pub fn new(memory: M) -> Tape<M>
        ensures { (result.memory ≡ memory) × (result.count ≡ 0) }
    {
        Tape { memory, count: 0 }
    }

    pub fn into_memory(self) -> M
        ensures { result ≡ self.memory }
    {
        let Tape { memory, count: _ } = self;
        memory
    }

    // How many frames it has heard.
    pub fn count(&self) -> usize
        ensures { result ≡ self.now.count }
    {
        self.count
    }
}

// How many frames a tape holds in memory for this many.
fn capacity(frames: usize) -> usize
    ensures { result ≡ holds frames }
{
    frames.min(4_194_304)
}

impl<M: Memory> Sink for Tape<M> {
    ghost shows = { record {
      heard = λ s. M.first s.memory s.count;
      allowance = λ s. holds (M.places s.memory) - s.count;
      makes = λ s fs. fs;
      stop = λ s. full;
      takes = λ s f t. M.writes s.memory s.count f t.memory × (t.count ≡ s.count + 1);
      healed = λ s t. t ≡ s;
    } };

    ghost lawful = { λ s. lawful_same };

    fn offer(&mut self, frame: Frame) -> Result<(), Stop> {
        if self.count >= capacity(self.memory.room()) {
            return Err(Stop {
                cause: FULL,
                depth: 0,
            });
        }
        self.memory.write(self.count, frame);
        self.count += 1;
        Ok(())
    }

    fn allowance(&self) -> u32 {
        capacity(self.memory.room()).saturating_sub(self.count) as u32
    }

    fn heal(&mut self) {}
}
