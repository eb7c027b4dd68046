// Whole recordings through a stream.
use crate::failure::Failure;
use crate::reading::Reader;
use crate::running::NO_ENTRY;
use crate::writing::Writer;
use calls::entry::Entry;
use capture::capture::Capture;
use codes::refusal::Refusal;
use frames::factor::Factor;
use frames::frame::Frame;
use frames::taps::TapSet;
use geometry::geometry::Geometry;
use playback::playback::Playback;
use sinks::byte_tape::ByteTape;
use sinks::fir::Fir;
use sinks::gain::Gain;
use sinks::keep::Keep;
use sinks::sink::Sink;
use sources::byte_source::ByteSource;
use std::alloc::{AllocError, Global};

// Gain at the top, then the filter, then keep, then the tape.
type Pile = Gain<Fir<Keep<ByteTape>>>;

// What is lent to a stream, and room for the frames of one lease.
#[derive(Drop)]
struct Lent {
    memory: Vec<Frame>,
    ledger: [Entry; 1],
    scratch: Vec<Frame>,
}

impl Lent {
    fn new(heap: Global, buffer: u32) -> Result<Lent, AllocError> {
        Ok(Lent {
            memory: vec![in heap; Frame::default(); buffer as usize]?,
            ledger: [NO_ENTRY],
            scratch: vec![in heap; Frame::default(); buffer as usize]?,
        })
    }
}

fn tap_set(bytes: &[u8]) -> Result<TapSet, Refusal> {
    let mut taps = [0i16; 32];
    let count = bytes.len() / 2;
    let _ = Reader::new(bytes).fill(&mut taps[..count.min(32)]);
    TapSet::check(taps, count)
}

fn build(memory: Vec<u8>, gain: u32, keep: u32, taps: &[u8]) -> Result<Pile, Refusal> {
    let gain = u16::try_from(gain).map_err(|_| Refusal::Layer)?;
    let taps = tap_set(taps)?;
    let factor = Factor::check(keep)?;
    Ok(Gain::new(
        Fir::new(Keep::new(ByteTape::new(memory), factor), taps),
        gain,
    ))
}

// Leases an area and commits the frames into it; tells how many.
fn commit(stream: &mut Playback, lent: &mut Lent, reader: &mut Reader<'_>, wanted: u32) -> usize {
    let Ok(lease) = stream.begin(wanted) else {
        return 0;
    };
    let n = (lease.parts().length as usize).min(lent.scratch.len());
    let frames = &mut lent.scratch[..n];
    let _ = reader.fill(frames);
    let _ = stream.put(&mut lent.memory, &lease, 0, frames);
    stream.commit(lease, n as u32).map_or(0, |()| n)
}

// Commits and plays by turns, always leaving a frame to wait, until the recording is committed; then plays the rest. It ends
// where the sink stops.
fn feed<S: Sink>(stream: &mut Playback, sink: &mut S, lent: &mut Lent, recording: &[u8]) {
    let mut reader = Reader::new(recording);
    let mut left = recording.len() / 4;
    let size = lent.memory.len().min(65536) as u32;
    let _ = stream.prepare(sink, &mut lent.ledger);
    for _ in 0..recording.len() {
        let wanted = left.min(65536) as u32;
        left = left.saturating_sub(commit(stream, lent, &mut reader, wanted));
        let waiting = size.saturating_sub(stream.avail());
        if left == 0 {
            let _ = stream.drain();
            let _ = stream.tick(sink, &lent.memory, &mut lent.ledger, waiting);
            break;
        }
        let k = waiting.saturating_sub(1);
        match stream.tick(sink, &lent.memory, &mut lent.ledger, k) {
            Ok(ticked) if ticked.frames == k => {}
            _ => break,
        }
    }
}

// Plays a recording, and writes what the tape has heard; tells how many frames. It is given what the C function is given.
pub fn play_all(
    heap: Global,
    buffer: u32,
    gain: u32,
    keep: u32,
    taps: &[u8],
    recording: &[u8],
    out: &mut [u8],
) -> Result<usize, Failure> {
    let geometry = Geometry::check(buffer, 1, None, 1, 1)?;
    let tape = vec![in heap; 0; (recording.len() / 4).min(4_194_304) * 4]?;
    let mut pile = build(tape, gain, keep, taps)?;
    let mut stream = Playback::new(geometry);
    let mut lent = Lent::new(heap, buffer)?;
    feed(&mut stream, &mut pile, &mut lent, recording);
    let tape = pile.into_below().into_below().into_below();
    let heard = tape.count();
    let bytes = tape.into_memory();
    let n = heard.saturating_mul(4).min(bytes.len()).min(out.len());
    out[..n].copy_from_slice(&bytes[..n]);
    Ok(heard)
}

// Reads what one lease has into the scratch memory; tells how many frames.
fn read(stream: &mut Capture, lent: &mut Lent) -> usize {
    let Ok(lease) = stream.begin(65536) else {
        return 0;
    };
    let n = (lease.parts().length as usize).min(lent.scratch.len());
    let _ = stream.copy(&lent.memory, &lease, 0, &mut lent.scratch[..n]);
    stream.commit(lease, n as u32).map_or(0, |()| n)
}

// Captures and reads by turns, always leaving a place free, until nothing comes any more; tells how many frames were read.
fn read_all(
    stream: &mut Capture,
    source: &mut ByteSource,
    lent: &mut Lent,
    writer: &mut Writer<'_>,
    most: usize,
) -> usize {
    let k = lent.memory.len().saturating_sub(1).min(65536) as u32;
    let mut got = 0usize;
    for _ in 0..most {
        let Ok(ticked) = stream.tick(source, &mut lent.memory, &mut lent.ledger, k) else {
            break;
        };
        if ticked.frames == 0 {
            break;
        }
        for _ in 0..2 {
            let n = read(stream, lent).min(lent.scratch.len());
            let _ = writer.put_all(&lent.scratch[..n]);
            got = got.saturating_add(n);
        }
    }
    got
}

// Captures a recording, and writes every frame read; tells how many.
pub fn capture_all(
    heap: Global,
    buffer: u32,
    recording: &[u8],
    out: &mut [u8],
) -> Result<usize, Failure> {
    let geometry = Geometry::check(buffer, 1, None, 1, 1)?;
    let mut source = ByteSource::new(recording.to_vec(heap)?);
    let mut stream = Capture::new(geometry);
    let mut lent = Lent::new(heap, buffer)?;
    let _ = stream.prepare(&mut lent.ledger);
    let _ = stream.start();
    Ok(read_all(
        &mut stream,
        &mut source,
        &mut lent,
        &mut Writer::new(out, 0),
        recording.len(),
    ))
}
