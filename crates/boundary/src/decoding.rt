// Calls read from a script.
use crate::reading::{FromBytes, Reader};
use calls::call::{Call, CaptureCall, Given, PlaybackCall};
use calls::lease_parts::LeaseParts;
use frames::frame::Frame;

impl FromBytes for Given {
    fn read(reader: &mut Reader<'_>) -> Option<Given> {
        match reader.read::<u8>()? {
            0 => Some(Given::Own),
            1 => Some(Given::Another),
            _ => None,
        }
    }
}

impl FromBytes for LeaseParts {
    fn read(reader: &mut Reader<'_>) -> Option<LeaseParts> {
        Some(LeaseParts {
            tag: reader.read()?,
            number: reader.read()?,
            place: reader.read()?,
            length: reader.read()?,
        })
    }
}

// Frames behind their count, read into the scratch memory.
fn read_frames<'a>(reader: &mut Reader<'_>, scratch: &'a mut [Frame]) -> Option<&'a [Frame]> {
    let count: u32 = reader.read()?;
    let frames = scratch.get_mut(..count as usize)?;
    reader.fill(frames)?;
    Some(frames)
}

// Reads a call, with its frames in the scratch memory; none where it is unknown or cut off.
pub fn read_call<'a>(reader: &mut Reader<'_>, scratch: &'a mut [Frame]) -> Option<Call<'a>> {
    match reader.read::<u8>()? {
        code @ 1..=12 => Some(Call::Playback(read_playback_call(reader, code, scratch)?)),
        code => Some(Call::Capture(read_capture_call(reader, code)?)),
    }
}

fn read_playback_call<'a>(
    reader: &mut Reader<'_>,
    code: u8,
    scratch: &'a mut [Frame],
) -> Option<PlaybackCall<'a>> {
    match code {
        1 => Some(PlaybackCall::Begin(reader.read()?)),
        2 => Some(PlaybackCall::Put(
            reader.read()?,
            reader.read()?,
            reader.read()?,
            read_frames(reader, scratch)?,
        )),
        3 => Some(PlaybackCall::Mix(
            reader.read()?,
            reader.read()?,
            reader.read()?,
            read_frames(reader, scratch)?,
        )),
        4 => Some(PlaybackCall::Commit(reader.read()?, reader.read()?)),
        5 => Some(PlaybackCall::Start),
        6 => Some(PlaybackCall::Tick(reader.read()?, reader.read()?, reader.read()?)),
        7 => Some(PlaybackCall::Pause),
        8 => Some(PlaybackCall::Resume),
        9 => Some(PlaybackCall::Drain),
        10 => Some(PlaybackCall::Drop(reader.read()?)),
        11 => Some(PlaybackCall::Prepare(reader.read()?)),
        12 => Some(PlaybackCall::Take(reader.read()?)),
        _ => None,
    }
}

fn read_capture_call(reader: &mut Reader<'_>, code: u8) -> Option<CaptureCall> {
    match code {
        33 => Some(CaptureCall::Begin(reader.read()?)),
        34 => Some(CaptureCall::Copy(
            reader.read()?,
            reader.read()?,
            reader.read()?,
            reader.read()?,
            reader.read()?,
        )),
        36 => Some(CaptureCall::Commit(reader.read()?, reader.read()?)),
        37 => Some(CaptureCall::Start),
        38 => Some(CaptureCall::Tick(reader.read()?, reader.read()?, reader.read()?)),
        39 => Some(CaptureCall::Pause),
        40 => Some(CaptureCall::Resume),
        41 => Some(CaptureCall::Drain),
        42 => Some(CaptureCall::Drop(reader.read()?)),
        43 => Some(CaptureCall::Prepare(reader.read()?)),
        44 => Some(CaptureCall::Take(reader.read()?)),
        _ => None,
    }
}
