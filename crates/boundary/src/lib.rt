// The boundary to other languages: functions on numbers and byte slices, whose forms docs/BOUNDARY.md gives.
// They check every length themselves and never trap, whatever the bytes are.
#![tactic(auto)]

mod answers;
mod decoding;
mod failure;
mod header;
mod piles;
mod reading;
mod recordings;
mod running;
mod scripts;
mod shape;
mod writing;

use crate::failure::Failure;
use crate::recordings::{capture_all, play_all};
use crate::scripts::run_script;
use std::alloc::Global;

// What `zagorchard_play` and `zagorchard_capture` return where there is no result: C knows no Option.
const REFUSED: u64 = u64::MAX;

fn frames_or_refused(ended: Result<usize, Failure>) -> u64 {
    ended.map_or(REFUSED, |frames| frames as u64)
}

// Tries the calls of a script on both streams, and writes what they answered.
#[unsafe(no_mangle)]
pub extern "C" fn zagorchard_calls(heap: Global, script: &[u8], out: &mut [u8]) -> u64 {
    if out.len() < 8 {
        return 0;
    }
    run_script(heap, script, out) as u64
}

// Plays a whole recording through a playback stream, and writes what was heard. C hands over each parameter by itself.
#[unsafe(no_mangle)]
pub extern "C" fn zagorchard_play(
    heap: Global,
    buffer: u32,
    gain: u32,
    keep: u32,
    taps: &[u8],
    recording: &[u8],
    out: &mut [u8],
) -> u64 {
    frames_or_refused(play_all(heap, buffer, gain, keep, taps, recording, out))
}

// Captures a whole recording through a capture stream, and writes what was read.
#[unsafe(no_mangle)]
pub extern "C" fn zagorchard_capture(
    heap: Global,
    buffer: u32,
    recording: &[u8],
    out: &mut [u8],
) -> u64 {
    frames_or_refused(capture_all(heap, buffer, recording, out))
}

#[cfg(test)]
mod tests {
    use crate::reading::Reader;
    use crate::recordings::{capture_all, play_all};
    use crate::scripts::run_script;
    use std::alloc::{AllocError, Global};
    use std::test::Fail;

    fn push_number(script: &mut Vec<u8>, n: u32) -> Result<(), AllocError> {
        for byte in n.to_le_bytes() {
            script.push(byte)?;
        }
        Ok(())
    }

    fn push_numbers(script: &mut Vec<u8>, numbers: &[u32]) -> Result<(), AllocError> {
        for n in numbers {
            push_number(script, *n)?;
        }
        Ok(())
    }

    // So many bytes, all the same.
    fn push_bytes(script: &mut Vec<u8>, byte: u8, count: usize) -> Result<(), AllocError> {
        for _ in 0..count {
            script.push(byte)?;
        }
        Ok(())
    }

    // A call: its byte with the given bytes, and then its numbers.
    fn push_call(script: &mut Vec<u8>, bytes: &[u8], numbers: &[u32]) -> Result<(), AllocError> {
        for byte in bytes {
            script.push(*byte)?;
        }
        push_numbers(script, numbers)
    }

    // Both streams with a buffer of 8 and periods of 4, a frame tape for 16 frames, one tap, no marks and no host memory.
    fn header(heap: Global) -> Result<Vec<u8>, AllocError> {
        let mut script = Vec::new(heap);
        push_numbers(&mut script, &[8, 4, 6, 16, 7, 8, 4, 0, 16, 9])?;
        push_bytes(&mut script, 1, 1)?;
        push_numbers(&mut script, &[16, 256, 1])?;
        push_bytes(&mut script, 1, 65)?;
        push_bytes(&mut script, 0, 65)?;
        push_numbers(&mut script, &[100, 0, 0])?;
        Ok(script)
    }

    // Frames by their four bytes as one number.
    fn recording(heap: Global) -> Result<Vec<u8>, AllocError> {
        let mut bytes = Vec::new(heap);
        push_numbers(&mut bytes, &[1, 2, 3, 4, 5, 6, 7, 8, 9, 10])?;
        Ok(bytes)
    }

    #[test]
    fn six_frames_and_an_underrun(rt: HostRuntime) -> Result<(), Fail> {
        let heap = rt.alloc();
        let mut script = header(heap)?;
        push_call(&mut script, &[11, 0], &[])?;
        push_call(&mut script, &[1], &[6])?;
        push_call(&mut script, &[2, 0], &[7, 1, 0, 6, 0, 6, 1, 2, 3, 4, 5, 6])?;
        push_call(&mut script, &[4], &[7, 1, 0, 6, 6])?;
        push_call(&mut script, &[6, 0, 0], &[5])?;
        push_call(&mut script, &[1], &[9])?;
        push_call(&mut script, &[4], &[7, 2, 6, 2, 0])?;
        push_call(&mut script, &[6, 0, 0], &[3])?;
        push_call(&mut script, &[12, 0], &[])?;
        let mut out = vec![in heap; 0; 500]?;
        assert_eq!(rt; run_script(heap, &script, &mut out), 432);
        let wanted = [
            0, 9, // status, calls
            0, 0, 0, 0, 0, 0, 0, 2, 0, 0, 8, // prepare
            1, 7, 1, 0, 6, 0, 0, 2, 0, 0, 8, // begin
            0, 0, 0, 0, 0, 0, 0, 2, 0, 0, 8, // put
            0, 0, 0, 0, 0, 0, 0, 3, 6, 0, 2, // commit
            2, 5, 3, 1, 0, 0, 0, 3, 6, 5, 7, // tick
            1, 7, 2, 6, 2, 0, 0, 3, 6, 5, 7, // begin
            0, 0, 0, 0, 0, 0, 0, 3, 6, 5, 7, // commit
            2, 1, 4, 0, 0, 0, 0, 4, 6, 6, 8, // tick
            4, 1, 6, 0, 2, 0, 0, 4, 6, 6, 8, // take
            6, 1, 2, 3, 4, 5, 6, // heard
        ];
        let mut reader = Reader::new(&out);
        for n in wanted {
            assert_eq!(rt; reader.read::<u32>(), Some(n));
        }
        Ok(())
    }

    #[test]
    fn an_unknown_call_ends_the_script(rt: HostRuntime) -> Result<(), Fail> {
        let heap = rt.alloc();
        let mut script = header(heap)?;
        push_call(&mut script, &[255], &[])?;
        let mut out = vec![in heap; 0; 500]?;
        let _ = run_script(heap, &script, &mut out);
        let mut reader = Reader::new(&out);
        assert_eq!(rt; reader.read::<u32>(), Some(100));
        assert_eq!(rt; reader.read::<u32>(), Some(0));
        Ok(())
    }

    #[test]
    fn every_second_frame_is_heard(rt: HostRuntime) -> Result<(), Fail> {
        let heap = rt.alloc();
        let mut out = vec![in heap; 0; 40]?;
        // One tap of 32767/32768 leaves small samples as they are.
        let heard = play_all(heap, 4, 256, 2, &[255, 127], &recording(heap)?, &mut out);
        assert_eq!(rt; heard, Ok(5));
        let mut reader = Reader::new(&out);
        for n in [1, 3, 5, 7, 9, 0] {
            assert_eq!(rt; reader.read::<u32>(), Some(n));
        }
        Ok(())
    }

    #[test]
    fn every_frame_is_captured(rt: HostRuntime) -> Result<(), Fail> {
        let heap = rt.alloc();
        let bytes = recording(heap)?;
        let mut out = vec![in heap; 0; 40]?;
        assert_eq!(rt; capture_all(heap, 4, &bytes, &mut out), Ok(10));
        let mut reader = Reader::new(&out);
        for n in [1, 2, 3, 4, 5, 6, 7, 8, 9, 10] {
            assert_eq!(rt; reader.read::<u32>(), Some(n));
        }
        Ok(())
    }
}
