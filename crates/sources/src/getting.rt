// Frames from any source into a memory.
ghost use Rattle.std.specs.Prelude.{◌≡◌, ◌<◌, ◌≤◌, [], ◌++◌, length, take, drop};
ghost use Rattle.sources.specs.Source.{Gives, ChainsJoin, ChainsTake};

use crate::source::Source;
use frames::frame::Frame;

// Gets frames until the memory is full or none comes, and says how many came.
pub fn get_all<S: Source>(source: &mut S, into: &mut [Frame]) -> usize
    ensures answer { (result ≤ length into.old) × (result < length into.old → S.Source.shows.coming source.new ≡ []) }
    ensures elements { S.Source.shows.coming source.old ≡ take result into.new ++ S.Source.shows.coming source.new }
    ensures memory { drop result into.new ≡ drop result into.old }
    ensures rule { Gives S.Source.shows source.old (take result into.new) source.new }
{
    for (came, place) in into.iter_mut().enumerate() {
        let Some(frame) = source.get() else {
            return came;
        };
        *place = frame;
    }
    into.len()
}

// Of every source: gets that go on where others ended make one chain with them, and a chain takes its frames off the front.
pub fn chains_stand<S: Source>()
    ensures rule { ChainsJoin S.Source.shows }
    ensures elements { ChainsTake S.Source.shows }
{}
