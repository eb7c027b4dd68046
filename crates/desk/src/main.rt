// The desk: takes a recording from standard input through a pile of layers onto a tape, and reports what it did.
// The recording is raw 16-bit stereo, left then right, low byte first.
#![tactic(auto)]

mod playing;
mod report;

use crate::playing::play;
use crate::report::{say_end, say_halts, say_peaks, say_pile, say_recording};
use codes::refusal::Refusal;
use frames::frame::Frame;
use frames::taps::TapSet;
use sinks::byte_tape::ByteTape;
use sinks::fault::Fault;
use sinks::fir::Fir;
use sinks::gain::Gain;
use sinks::marks::Marks;
use sources::byte_source::ByteSource;
use sources::getting::get_all;
use std::alloc::{AllocError, Global};
use std::io::Read;

// The tape takes gain and filter, stops at a mark in the middle, and ends a little before the recording does.
type Pile = Gain<Fir<Fault<ByteTape>>>;

fn main(rt: HostRuntime) -> anyhow::Result<()> {
    run(&rt)
}

fn run(rt: &HostRuntime) -> anyhow::Result<()> {
    let heap = rt.alloc();
    let mut bytes = Vec::new(heap);
    rt.stdin().read_to_end(&mut bytes)?;
    let size = bytes.len();
    let frames = read(heap, bytes)?;
    say_recording(rt, size, &frames)?;
    let count = frames.len();
    let mark = u32::try_from(count / 2).unwrap_or(u32::MAX);
    let room = count - count / 10;
    say_pile(rt, mark, room)?;
    let mut pile = build(vec![in heap; 0; room * 4]?, mark)?;
    let mut halts = Vec::new(heap);
    let played = play(&mut pile, &frames, &mut halts)?;
    say_halts(rt, &halts)?;
    let tape = pile.into_below().into_below().into_below();
    let heard = tape.count();
    say_end(rt, count, played, heard)?;
    let taped = read(heap, tape.into_memory())?;
    say_peaks(rt, peak(&frames), peak(&taped))
}

// The frames of a recording. An incomplete last one is left out.
fn read(heap: Global, bytes: Vec<u8>) -> Result<Vec<Frame>, AllocError> {
    let count = bytes.len() / 4;
    let mut frames = vec![in heap; Frame::default(); count]?;
    let mut source = ByteSource::new(bytes);
    let got = get_all(&mut source, &mut frames);
    frames.truncate(got);
    Ok(frames)
}

// The loudest sample of each channel.
fn peak(frames: &[Frame]) -> Frame {
    let mut peak = Frame::default();
    for frame in frames {
        peak.left = peak.left.max(frame.left.saturating_abs());
        peak.right = peak.right.max(frame.right.saturating_abs());
    }
    peak
}

fn build(memory: Vec<u8>, mark: u32) -> Result<Pile, Refusal> {
    let mut taps = [0; 32];
    taps[0] = 8192;
    taps[1] = 16384;
    taps[2] = 8192;
    let taps = TapSet::check(taps, 3)?;
    let marks = Marks::check(&[mark])?;
    let tape = ByteTape::new(memory);
    Ok(Gain::new(Fir::new(Fault::new(tape, marks), taps), 192))
}
