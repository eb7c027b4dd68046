// Why a sink refuses a frame.
ghost use Rattle.std.specs.Prelude.{◌≡◌};
ghost use Rattle.sinks.specs.Stops.{passed_up};

// The cause is a plain number, since any sink may have causes of its own. The depth tells how many layers lie above the
// one that named it.
#[derive(Clone, Copy, PartialEq, Eq, Debug)]
pub struct Stop {
    pub cause: u32,
    pub depth: u8,
}

impl Stop {
    // The same stop, seen from one layer further up.
    pub fn passed_up(self) -> Stop
        ensures { result ≡ passed_up self }
    {
        Stop {
            depth: self.depth.saturating_add(1),
            ..self
        }
    }
}
