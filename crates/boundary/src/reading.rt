// Numbers and frames read from bytes, low byte first.
ghost use Rattle.boundary.specs.Reading.{Takes};

use frames::frame::Frame;

// The bytes that are still to be read.
#[derive(Drop)]
pub struct Reader<'a> {
    left: &'a [u8],
}

// What has a form in bytes; none where too few bytes are left, or they are no such form.
pub trait FromBytes: Copy {
    fn read(reader: &mut Reader<'_>) -> Option<Self>;
}

impl<'a> Reader<'a> {
    pub fn new(bytes: &'a [u8]) -> Reader<'a> {
        Reader { left: bytes }
    }

    // How many bytes are left.
    pub fn left(&self) -> usize {
        self.left.len()
    }

    // The next N bytes; none where fewer are left, and those stay.
    fn take<const N: usize>(&mut self) -> Option<[u8; N]>
        ensures { Takes N self.old.left.now result self.new.left.now }
    {
        let (bytes, left) = self.left.split_first_chunk::<N>()?;
        self.left = left;
        Some(*bytes)
    }

    pub fn read<T: FromBytes>(&mut self) -> Option<T> {
        T::read(self)
    }

    // Reads into each place; none where the bytes end before.
    pub fn fill<T: FromBytes>(&mut self, places: &mut [T]) -> Option<()> {
        for place in places.iter_mut() {
            *place = self.read()?;
        }
        Some(())
    }
}

impl FromBytes for u8 {
    fn read(reader: &mut Reader<'_>) -> Option<u8> {
        let [byte] = reader.take::<1>()?;
        Some(byte)
    }
}

impl FromBytes for i16 {
    fn read(reader: &mut Reader<'_>) -> Option<i16> {
        reader.take().map(i16::from_le_bytes)
    }
}

impl FromBytes for u32 {
    fn read(reader: &mut Reader<'_>) -> Option<u32> {
        reader.take().map(u32::from_le_bytes)
    }
}

impl FromBytes for Frame {
    fn read(reader: &mut Reader<'_>) -> Option<Frame> {
        reader.take().map(Frame::from)
    }
}
