// A tape of frames.
ghost use Rattle.std.specs.Prelude.{◌≡◌, take, vec_len, slice_set, refl};

use crate::tape::{Memory, Tape};
use frames::frame::Frame;

pub type FrameTape = Tape<Vec<Frame>>;

impl Memory for Vec<Frame> {
    ghost places = { λ m. vec_len m };

    ghost first = { λ m n. take n m.items };

    ghost writes = { λ m n f t. t.items ≡ slice_set m.items n f };

    fn room(&self) -> usize {
        self.len()
    }

    fn write(&mut self, at: usize, frame: Frame) {
        self[at] = frame;
    }

    ghost empty = { λ m. refl };
}
