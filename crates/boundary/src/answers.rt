// Answers written as eleven numbers: kind, six numbers, and how the stream that was called stands.
use crate::writing::Writer;
use calls::answer::{Answer, Outcome};
use capture::capture::Capture;
use playback::playback::Playback;

// The bytes of an answer.
pub const ANSWER: usize = 44;

// How a stream stands: its state, its two pointers, and what is available.
#[derive(Clone, Copy)]
pub struct Standing([u32; 4]);

// A trait over both streams would have to name the four questions once more for each, and be no shorter.
impl From<&Playback> for Standing {
    fn from(stream: &Playback) -> Standing {
        Standing([
            u32::from(stream.state()),
            stream.application(),
            stream.hardware(),
            stream.avail(),
        ])
    }
}

impl From<&Capture> for Standing {
    fn from(stream: &Capture) -> Standing {
        Standing([
            u32::from(stream.state()),
            stream.application(),
            stream.hardware(),
            stream.avail(),
        ])
    }
}

fn numbers_of(answer: Answer) -> [u32; 7] {
    match answer {
        Ok(Outcome::Done) => [0, 0, 0, 0, 0, 0, 0],
        Ok(Outcome::Granted(lease)) => [
            1,
            lease.tag,
            lease.number,
            lease.place,
            lease.length,
            0,
            0,
        ],
        Ok(Outcome::Ticked(ticked)) => [
            2,
            ticked.frames,
            u32::from(ticked.state),
            ticked.periods,
            0,
            0,
            0,
        ],
        Ok(Outcome::Taken(None)) => [3, 0, 0, 0, 0, 0, 0],
        Ok(Outcome::Taken(Some(entry))) => [
            4,
            u32::from(entry.kind),
            entry.first,
            entry.lost,
            entry.missed,
            entry.cause,
            u32::from(entry.depth),
        ],
        Err(why) => [5, u32::from(why), 0, 0, 0, 0, 0],
    }
}

// Writes an answer and how the stream stands; none where there is no room for them.
pub fn put_answer(writer: &mut Writer<'_>, answer: Answer, standing: Standing) -> Option<()> {
    writer.put_all(&numbers_of(answer))?;
    writer.put_all(&standing.0)
}
