// The shapes of a pile, each named from the top down.
ghost use Rattle.boundary.specs.Failures.{shape_number};
ghost use Rattle.codes.specs.Numbered.{Numbered};

use crate::reading::{FromBytes, Reader};
use codes::unknown_number::UnknownNumber;

#[derive(Clone, Copy)]
pub enum Shape {
    Bytes,
    Frames,
    FaultBytes,
    GainFaultFrames,
    FilterGainFaultBytes,
    KeepFilterGainFaultBytes,
    FaultKeepBytes,
    GainKeepFilterFrames,
}

impl TryFrom<u8> for Shape {
    type Error = UnknownNumber;

    ghost try_from_gives = { Numbered shape_number };

    fn try_from(n: u8) -> Result<Shape, UnknownNumber> {
        match n {
            0 => Ok(Shape::Bytes),
            1 => Ok(Shape::Frames),
            2 => Ok(Shape::FaultBytes),
            3 => Ok(Shape::GainFaultFrames),
            4 => Ok(Shape::FilterGainFaultBytes),
            5 => Ok(Shape::KeepFilterGainFaultBytes),
            6 => Ok(Shape::FaultKeepBytes),
            7 => Ok(Shape::GainKeepFilterFrames),
            _ => Err(UnknownNumber(u32::from(n))),
        }
    }
}

impl FromBytes for Shape {
    fn read(reader: &mut Reader<'_>) -> Option<Shape> {
        Shape::try_from(reader.read::<u8>()?).ok()
    }
}
