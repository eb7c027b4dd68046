// A script run over any pile.
ghost use Rattle.std.specs.Prelude.{◌≡◌};

use crate::answers::{ANSWER, Standing, put_answer};
use crate::decoding::read_call;
use crate::failure::Failure;
use crate::header::Setup;
use crate::piles::Pile;
use crate::reading::Reader;
use crate::writing::Writer;
use calls::answer::{Answer, Outcome};
use calls::call::Call;
use calls::elsewhere::Spare;
use calls::entry::Entry;
use capture::capture::Capture;
use capture::situation::Situation as CaptureSituation;
use codes::entry_kind::EntryKind;
use frames::frame::Frame;
use playback::playback::Playback;
use playback::situation::Situation as PlaybackSituation;
use sinks::sink::Sink;
use sources::step_source::StepSource;
use std::alloc::{AllocError, Global};
use streams::table::Table;
use streams::trying::{Hands, Tried};

// The bytes before the answers.
const HEAD: usize = 8;

// A script behind its header.
#[derive(Drop)]
pub struct Script<'a> {
    pub heap: Global,
    pub setup: Setup,
    pub calls: Reader<'a>,
}

// How the calls ended, and how many were tried.
#[derive(Clone, Copy)]
struct Ran {
    ended: Result<(), Failure>,
    count: u32,
}

// What a ledger's memory holds before an entry is written. No kind of entry is the usual one, so there is no default.
pub const NO_ENTRY: Entry = Entry {
    kind: EntryKind::Underrun,
    first: 0,
    lost: 0,
    missed: 0,
    cause: 0,
    depth: 0,
};

// Both streams with all that their calls are given, but for the sink.
#[derive(Drop)]
struct Streams {
    playback: Playback,
    memory: Vec<Frame>,
    ledger: Vec<Entry>,
    capture: Capture,
    source: StepSource,
    capture_memory: Vec<Frame>,
    capture_ledger: Vec<Entry>,
    host: Vec<Frame>,
    spare: Vec<Frame>,
    spare_ledger: Vec<Entry>,
}

// What a call answered, and the leases that are out after it.
struct Asked {
    answer: Answer,
    hands: Hands,
}

impl Streams {
    fn new(heap: Global, setup: &Setup) -> Result<Streams, AllocError> {
        Ok(Streams {
            playback: Playback::new(setup.playback),
            memory: vec![in heap; Frame::default(); setup.playback.buffer() as usize]?,
            ledger: vec![in heap; NO_ENTRY; setup.playback.ledger() as usize]?,
            capture: Capture::new(setup.capture),
            source: StepSource::new(setup.frames, setup.sample, setup.step),
            capture_memory: vec![in heap; Frame::default(); setup.capture.buffer() as usize]?,
            capture_ledger: vec![in heap; NO_ENTRY; setup.capture.ledger() as usize]?,
            host: vec![in heap; Frame::default(); setup.host]?,
            spare: vec![in heap; Frame::default(); 3]?,
            spare_ledger: vec![in heap; NO_ENTRY; 3]?,
        })
    }

    fn try_one<S: Sink>(&mut self, sink: &mut S, hands: Hands, call: Call<'_>) -> Asked {
        let mut table = Table {
            playback: PlaybackSituation {
                stream: &mut self.playback,
                sink,
                memory: &mut self.memory,
                ledger: &mut self.ledger,
            },
            capture: CaptureSituation {
                stream: &mut self.capture,
                source: &mut self.source,
                memory: &mut self.capture_memory,
                ledger: &mut self.capture_ledger,
                host: &mut self.host,
            },
        };
        let mut spare = Spare {
            frames: &mut self.spare,
            ledger: &mut self.spare_ledger,
        };
        let mut answers = [Ok(Outcome::Done)];
        let Tried { count: _, hands } = table.try_calls(&mut spare, hands, &[call], &mut answers);
        Asked {
            answer: answers[0],
            hands,
        }
    }

    // How the stream stands that a call was for.
    fn standing(&self, call: Call<'_>) -> Standing {
        match call {
            Call::Playback(_) => Standing::from(&self.playback),
            Call::Capture(_) => Standing::from(&self.capture),
        }
    }

    // The host's memory alone; the rest is let go.
    fn into_host(self) -> Vec<Frame>
        ensures { result ≡ self.host }
    {
        let Streams { host, .. } = self;
        host
    }

    // A lease that is still out at the end is given back.
    fn give_back(&mut self, hands: Hands) {
        let Hands { playback, capture } = hands;
        if let Some(lease) = playback {
            let _ = self.playback.commit(lease, 0);
        }
        if let Some(lease) = capture {
            let _ = self.capture.commit(lease, 0);
        }
    }

    // Tries the calls one after the other, and writes each answer.
    fn try_all<S: Sink>(
        &mut self,
        sink: &mut S,
        calls: &mut Reader<'_>,
        scratch: &mut [Frame],
        writer: &mut Writer<'_>,
    ) -> Ran {
        let mut ran = Ran {
            ended: Ok(()),
            count: 0,
        };
        let mut hands = Hands {
            playback: None,
            capture: None,
        };
        // Each call is at least a byte.
        for _ in 0..calls.left() {
            if calls.left() == 0 {
                break;
            }
            let Some(call) = read_call(calls, scratch) else {
                ran.ended = Err(Failure::NotDecoded);
                break;
            };
            if !writer.has_room(ANSWER) {
                ran.ended = Err(Failure::NoRoom);
                break;
            }
            let Asked {
                answer,
                hands: left,
            } = self.try_one(sink, hands, call);
            hands = left;
            let _ = put_answer(writer, answer, self.standing(call));
            ran.count = ran.count.saturating_add(1);
        }
        self.give_back(hands);
        ran
    }
}

// How many frames there are; a tape here has at most 65,536.
fn count_of(frames: &[Frame]) -> u32 {
    u32::try_from(frames.len()).unwrap_or(u32::MAX)
}

// Behind the answers what was heard and the host's memory, unless they have no room.
fn put_end(writer: &mut Writer<'_>, heard: &[Frame], host: &[Frame]) -> Result<(), Failure> {
    let frames = heard.len().saturating_add(host.len());
    if !writer.has_room(frames.saturating_mul(4).saturating_add(4)) {
        return Err(Failure::NoRoom);
    }
    let _ = writer.put(count_of(heard));
    let _ = writer.put_all(heard);
    let _ = writer.put_all(host);
    Ok(())
}

// The head of what is written: a status, and how many calls were tried. Tells how many bytes it has.
pub fn put_head(out: &mut [u8], ended: Result<(), Failure>, count: u32) -> usize {
    let status = ended.err().map_or(0, u32::from);
    let _ = Writer::new(out, 0).put_all(&[status, count]);
    HEAD
}

// Tries the calls of a script on streams of its own. Of these and their memories only the host's memory is kept, so that the
// rest is free again before the tape is read.
fn try_on_streams<S: Sink>(
    script: Script<'_>,
    sink: &mut S,
    writer: &mut Writer<'_>,
) -> Result<(Ran, Vec<Frame>), AllocError> {
    let Script {
        heap,
        setup,
        mut calls,
    } = script;
    let mut streams = Streams::new(heap, &setup)?;
    let mut scratch = vec![in heap; Frame::default(); calls.left() / 4]?;
    let ran = streams.try_all(sink, &mut calls, &mut scratch, writer);
    Ok((ran, streams.into_host()))
}

// Runs a script onto a pile, and answers how many bytes were written.
pub fn run<P: Pile>(script: Script<'_>, mut pile: P, out: &mut [u8]) -> Result<usize, AllocError> {
    let heap = script.heap;
    let mut writer = Writer::new(out, HEAD);
    let (ran, host) = try_on_streams(script, &mut pile, &mut writer)?;
    let heard = pile.heard(heap)?;
    let ended = put_end(&mut writer, &heard, &host).and(ran.ended);
    let written = writer.at();
    put_head(out, ended, ran.count);
    Ok(written)
}
