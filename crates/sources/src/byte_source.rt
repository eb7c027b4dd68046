// A source that reads frames from bytes: four to a frame, left then right, low byte first.
ghost use Rattle.std.specs.Prelude.{◌≡◌, ◌+◌, ◌/◌, ◌<◌, [], ◌∷◌, length, slice_index};
ghost use Rattle.frames.specs.Layout.{frame_of};
ghost use Rattle.sources.specs.Bytes.{byte_points, BytesStay};

use crate::source::Source;
use frames::frame::Frame;

// The frame whose first byte stands at a place.
fn frame_at(bytes: &[u8], at: usize) -> Frame
    requires { at + 3 < length bytes.now }
    ensures { result ≡ frame_of (slice_index bytes.now at ∷ slice_index bytes.now (at + 1) ∷ slice_index bytes.now (at + 2) ∷ slice_index bytes.now (at + 3) ∷ []) }
{
    Frame::from([bytes[at], bytes[at + 1], bytes[at + 2], bytes[at + 3]])
}

// The bytes are given back whole, so the count stands beside them.
#[derive(Drop)]
pub struct ByteSource {
    memory: Vec<u8>,
    // how many frames were given
    next: usize,
}

impl ByteSource {
    // An incomplete last frame is left out.
    pub fn new(bytes: Vec<u8>) -> ByteSource
        ensures { (result.memory ≡ bytes) × (result.next ≡ 0) }
    {
        ByteSource {
            memory: bytes,
            next: 0,
        }
    }

    pub fn into_memory(self) -> Vec<u8>
        ensures { result ≡ self.memory }
    {
        let ByteSource { memory, next: _ } = self;
        memory
    }

    // One frame more was given.
    fn count(&mut self)
        requires { self.old.next < length self.old.memory.items / 4 }
        ensures { (self.new.memory ≡ self.old.memory) × (self.new.next ≡ self.old.next + 1) }
    {
        self.next += 1;
    }

    // Gets leave the memory as it was handed in.
    pub fn bytes_stay()
        ensures { BytesStay }
    {}
}

impl Source for ByteSource {
    ghost shows = { byte_points };

    fn get(&mut self) -> Option<Frame> {
        if self.next >= self.memory.len() / 4 {
            return None;
        }
        let frame = frame_at(&self.memory, 4 * self.next);
        self.count();
        Some(frame)
    }
}

#[cfg(test)]
mod tests {
    use super::*;
    use std::test::Fail;

    #[test]
    fn nine_bytes_are_two_frames(rt: HostRuntime) -> Result<(), Fail> {
        let bytes = [1, 0, 255, 255, 0, 128, 255, 127, 9].to_vec(rt.alloc())?;
        let mut source = ByteSource::new(bytes);
        assert_eq!(rt; source.get(), Some(Frame { left: 1, right: -1 }));
        assert_eq!(rt;
            source.get(),
            Some(Frame {
                left: -32768,
                right: 32767,
            })
        );
        assert_eq!(rt; source.get(), None);
        Ok(())
    }
}
