// Numbers and frames written as four bytes each, low byte first, where there is room for them.
ghost use Rattle.std.specs.Prelude.{◌≡◌, ◌+◌, ◌≤◌, ◌↔◌, ℕ, List, IsTrue, length};
ghost use Rattle.std.specs.Int.{w32, to_le_bytes};
ghost use Rattle.frames.specs.Layout.{bytes_of};
ghost use Rattle.boundary.specs.Writing.{MovesOn, WritesWhereRoom};

use frames::frame::Frame;

// What is written as four bytes.
pub trait ToBytes: Copy {
    ghost bytes: { Self → List ℕ };

    fn to_four_bytes(self) -> [u8; 4]
        ensures { result ≡ bytes self };
}

impl ToBytes for u32 {
    ghost bytes = { to_le_bytes w32 };

    fn to_four_bytes(self) -> [u8; 4] {
        self.to_le_bytes()
    }
}

impl ToBytes for Frame {
    ghost bytes = { bytes_of };

    fn to_four_bytes(self) -> [u8; 4] {
        <[u8; 4]>::from(self)
    }
}

fn put_four(out: &mut [u8], at: usize, bytes: [u8; 4]) -> Option<()>
    ensures { WritesWhereRoom out.old at bytes result out.new }
{
    if at >= out.len() || out.len() - at < 4 {
        return None;
    }
    out[at..at + 4].copy_from_slice(&bytes);
    Some(())
}

// Bytes that are written one item after the other. The clause `same` of a write tells the loan before it from that after it.
#[derive(Drop)]
pub struct Writer<'a> {
    out: &'a mut [u8],
    at: usize,
}

impl<'a> Writer<'a> {
    // Writes from a place on.
    pub fn new(out: &'a mut [u8], at: usize) -> Writer<'a>
        ensures place { result.at ≡ at }
        ensures bytes { result.out.now ≡ out.old }
        ensures same { result.out.ghost_name ≡ out.entry.ghost_name }
    {
        Writer { out, at }
    }

    // The place behind all that was written.
    pub fn at(&self) -> usize
        ensures { result ≡ self.now.at }
    {
        self.at
    }

    // Whether so many bytes more have room.
    pub fn has_room(&self, bytes: usize) -> bool
        ensures { IsTrue result ↔ (self.now.at + bytes ≤ length self.now.out.now) }
    {
        self.at <= self.out.len() && self.out.len() - self.at >= bytes
    }

    // Writes a number or a frame; none where it has no room.
    pub fn put<T: ToBytes>(&mut self, item: T) -> Option<()>
        ensures bytes { WritesWhereRoom self.old.out.now self.old.at (T.ToBytes.bytes item) result self.new.out.now }
        ensures place { MovesOn result self.old.at self.new.at }
        ensures same { self.new.out.ghost_name ≡ self.old.out.ghost_name }
    {
        put_four(self.out, self.at, item.to_four_bytes())?;
        self.at += 4;
        Some(())
    }

    // Numbers or frames one after the other, as far as they have room; none where some have not.
    pub fn put_all<T: ToBytes>(&mut self, items: &[T]) -> Option<()> {
        for item in items {
            self.put(*item)?;
        }
        Some(())
    }
}
