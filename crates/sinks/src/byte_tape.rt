// A tape of bytes, four to a frame.
ghost use Rattle.std.specs.Prelude.{◌≡◌, ◌*◌, ◌/◌, take, vec_len, refl};
ghost use Rattle.frames.specs.Layout.{bytes_of, frames_of};
ghost use Rattle.sinks.specs.Tapes.{written};

use crate::tape::{Memory, Tape};
use frames::frame::Frame;

pub type ByteTape = Tape<Vec<u8>>;

impl Memory for Vec<u8> {
    ghost places = { λ m. vec_len m / 4 };

    ghost first = { λ m n. frames_of (take (4 * n) m.items) };

    ghost writes = { λ m n f t. t.items ≡ written m.items (4 * n) (bytes_of f) };

    fn room(&self) -> usize {
        self.len() / 4
    }

    fn write(&mut self, at: usize, frame: Frame) {
        let bytes = <[u8; 4]>::from(frame);
        self[4 * at..4 * at + 4].copy_from_slice(&bytes);
    }

    ghost empty = { λ m. refl };
}
