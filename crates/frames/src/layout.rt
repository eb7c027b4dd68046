// A frame as four bytes: left then right, low byte first.
ghost use Rattle.std.specs.Prelude.{◌≡◌};
ghost use Rattle.frames.specs.Layout.{bytes_of, frame_of};

use crate::frame::Frame;

impl From<Frame> for [u8; 4] {
    ghost from_gives = { λ frame bytes. bytes ≡ bytes_of frame };

    fn from(frame: Frame) -> [u8; 4] {
        let left = frame.left.to_le_bytes();
        let right = frame.right.to_le_bytes();
        [left[0], left[1], right[0], right[1]]
    }
}

impl From<[u8; 4]> for Frame {
    ghost from_gives = { λ bytes frame. frame ≡ frame_of bytes };

    fn from(bytes: [u8; 4]) -> Frame {
        let [a, b, c, d] = bytes;
        Frame {
            left: i16::from_le_bytes([a, b]),
            right: i16::from_le_bytes([c, d]),
        }
    }
}
