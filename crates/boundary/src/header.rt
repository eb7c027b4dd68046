// The head of a script: what both streams are set up with.
use crate::failure::Failure;
use crate::reading::{FromBytes, Reader};
use crate::shape::Shape;
use codes::refusal::Refusal;
use frames::factor::Factor;
use frames::taps::TapSet;
use geometry::geometry::Geometry;
use sinks::marks::Marks;

// The most frames that a tape or the host's memory is given.
const MOST: u32 = 65536;

// The numbers of a geometry, not yet checked.
#[derive(Clone, Copy)]
struct Numbers {
    buffer: u32,
    period: u32,
    // 0 where it is not set: the byte form has no room for a none
    threshold: u32,
    ledger: u32,
    tag: u32,
}

// The numbers of a header, not yet checked. Taps and marks come as the script has them, a count before a fixed number of places.
#[derive(Clone, Copy)]
struct Header {
    playback: Numbers,
    capture: Numbers,
    shape: Shape,
    room: usize,
    gain: u16,
    factor: u32,
    tap_count: u8,
    taps: [i16; 32],
    mark_count: u8,
    marks: [u32; 16],
    frames: u32,
    sample: i16,
    step: i16,
    host: usize,
}

// What the streams are made from.
#[derive(Clone, Copy)]
pub struct Setup {
    pub playback: Geometry,
    pub capture: Geometry,
    pub shape: Shape,
    pub room: usize,
    pub gain: u16,
    pub factor: Factor,
    pub taps: TapSet,
    pub marks: Marks,
    pub frames: u32,
    pub sample: i16,
    pub step: i16,
    pub host: usize,
}

impl FromBytes for Numbers {
    fn read(reader: &mut Reader<'_>) -> Option<Numbers> {
        Some(Numbers {
            buffer: reader.read()?,
            period: reader.read()?,
            threshold: reader.read()?,
            ledger: reader.read()?,
            tag: reader.read()?,
        })
    }
}

// As many places as a script has for taps or marks.
fn read_places<T: FromBytes + Default, const N: usize>(reader: &mut Reader<'_>) -> Option<[T; N]> {
    let mut places = [T::default(); N];
    reader.fill(&mut places)?;
    Some(places)
}

// A count of frames of memory; none where it is more than there is.
fn read_room(reader: &mut Reader<'_>) -> Option<usize> {
    let frames: u32 = reader.read()?;
    (frames <= MOST).then_some(frames as usize)
}

impl FromBytes for Header {
    fn read(reader: &mut Reader<'_>) -> Option<Header> {
        Some(Header {
            playback: reader.read()?,
            capture: reader.read()?,
            shape: reader.read()?,
            room: read_room(reader)?,
            gain: u16::try_from(reader.read::<u32>()?).ok()?,
            factor: reader.read()?,
            tap_count: reader.read()?,
            taps: read_places(reader)?,
            mark_count: reader.read()?,
            marks: read_places(reader)?,
            frames: reader.read()?,
            sample: reader.read()?,
            step: reader.read()?,
            host: read_room(reader)?,
        })
    }
}

impl TryFrom<Numbers> for Geometry {
    type Error = Refusal;

    fn try_from(numbers: Numbers) -> Result<Geometry, Refusal> {
        let threshold = (numbers.threshold > 0).then_some(numbers.threshold);
        Geometry::check(
            numbers.buffer,
            numbers.period,
            threshold,
            numbers.ledger,
            numbers.tag,
        )
    }
}

fn check_marks(marks: &[u32], count: u8) -> Result<Marks, Refusal> {
    Marks::check(marks.get(..count as usize).ok_or(Refusal::Layer)?)
}

// Checks every number: both geometries, then the taps, the factor and the marks.
impl TryFrom<Header> for Setup {
    type Error = Refusal;

    fn try_from(header: Header) -> Result<Setup, Refusal> {
        Ok(Setup {
            playback: Geometry::try_from(header.playback)?,
            capture: Geometry::try_from(header.capture)?,
            taps: TapSet::check(header.taps, header.tap_count as usize)?,
            factor: Factor::check(header.factor)?,
            marks: check_marks(&header.marks, header.mark_count)?,
            shape: header.shape,
            room: header.room,
            gain: header.gain,
            frames: header.frames,
            sample: header.sample,
            step: header.step,
            host: header.host,
        })
    }
}

// Reads a header whole, and then checks its numbers.
pub fn read_setup(reader: &mut Reader<'_>) -> Result<Setup, Failure> {
    let header: Header = reader.read().ok_or(Failure::NotDecoded)?;
    Ok(Setup::try_from(header)?)
}
