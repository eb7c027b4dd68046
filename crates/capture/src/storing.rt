// Frames from a source into a ring.
ghost use Rattle.std.specs.Prelude.{◌≡◌, ◌+◌, ◌-◌, ◌%◌, ◌<◌, ◌≤◌, length, take, drop};
ghost use Rattle.ring.specs.Spans.{Has};
ghost use Rattle.sources.specs.Source.{Gives};
ghost use Rattle.account.specs.Capture.{stored};

use frames::frame::Frame;
use ring::span::Span;
use sources::source::Source;

// The place after another in a ring of `size` places.
fn after(place: u32, size: u32) -> u32
    requires { place < size }
    ensures answer { result ≡ (place + 1) % size }
    ensures rule { result < size }
{
    if place < size - 1 { place + 1 } else { 0 }
}

// Gets at most `most` frames, and writes them one after the other behind the newest of the ring, whose places wrap. This loop
// and the next stay loops over `get`: after an iterator over a lent source a proof knows nothing of how the source is left.
// The ring takes them in later, once it is known how many came.
fn store<R: Source>(source: &mut R, span: &Span, memory: &mut [Frame], most: u32) -> u32
    requires { length memory.old ≡ span.now.size }
    ensures answer { result ≡ length (take most (R.Source.shows.coming source.old)) }
    ensures elements { R.Source.shows.coming source.new ≡ drop most (R.Source.shows.coming source.old) }
    ensures rule { Gives R.Source.shows source.old (take most (R.Source.shows.coming source.old)) source.new }
    ensures memory { memory.new ≡ stored span.now.size memory.old (span.now.oldest + span.now.count) (take most (R.Source.shows.coming source.old)) }
{
    let size = span.size();
    let mut place = span.next();
    for count in 0..most {
        let Some(frame) = source.get() else {
            return count;
        };
        memory[place as usize] = frame;
        place = after(place, size);
    }
    most
}

// Gets at most `most` frames, and lets them go.
fn lose<R: Source>(source: &mut R, most: u32) -> u32
    ensures answer { result ≡ length (take most (R.Source.shows.coming source.old)) }
    ensures rule { Gives R.Source.shows source.old (take most (R.Source.shows.coming source.old)) source.new }
{
    for count in 0..most {
        let Some(_) = source.get() else {
            return count;
        };
    }
    most
}

// How many frames were stored, and how many more came.
#[derive(Clone, Copy)]
pub(crate) struct Came {
    pub kept: u32,
    pub lost: u32,
}

// Gets at most k frames. The ring takes in as many as it has room for, and the others are lost.
pub(crate) fn take_in<R: Source>(
    source: &mut R,
    span: &mut Span,
    memory: &mut [Frame],
    k: u32,
) -> Came
    requires { length memory.old ≡ span.old.size }
    ensures kept { result.kept ≡ length (take (span.old.size - span.old.count) (take k (R.Source.shows.coming source.old))) }
    ensures lost { result.lost ≡ length (drop (span.old.size - span.old.count) (take k (R.Source.shows.coming source.old))) }
    ensures rule { Gives R.Source.shows source.old (take k (R.Source.shows.coming source.old)) source.new }
    ensures memory { memory.new ≡ stored span.old.size memory.old (span.old.oldest + span.old.count) (take (span.old.size - span.old.count) (take k (R.Source.shows.coming source.old))) }
    ensures numbers { Has span.new span.old.size span.old.oldest (span.old.count + result.kept) }
    ensures within { (result.kept ≤ span.old.size - span.old.count) × (result.kept + result.lost ≤ k) }
{
    let room = span.size() - span.count();
    let kept = store(source, span, memory, k.min(room));
    let lost = lose(source, k - kept);
    span.take_in(kept).unwrap();
    Came { kept, lost }
}
