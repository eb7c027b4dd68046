// A playback stream with all that its calls are given.
use crate::playback::Playback;
use calls::entry::Entry;
use frames::frame::Frame;

mod stepping;
pub mod trying;

// Each loan has a lifetime of its own, so that it asks no more of whoever lends them than a call that takes them one by one.
#[derive(Drop)]
pub struct Situation<'stream, 'sink, 'memory, 'ledger, S> {
    pub stream: &'stream mut Playback,
    pub sink: &'sink mut S,
    pub memory: &'memory mut [Frame],
    pub ledger: &'ledger mut [Entry],
}
