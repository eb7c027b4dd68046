// A capture stream with all that its calls are given, and the host's memory that copies go into.
use crate::capture::Capture;
use calls::entry::Entry;
use frames::frame::Frame;

mod stepping;
pub mod trying;

// Each loan has a lifetime of its own, so that it asks no more of whoever lends them than a call that takes them one by one.
#[derive(Drop)]
pub struct Situation<'stream, 'source, 'memory, 'ledger, 'host, R> {
    pub stream: &'stream mut Capture,
    pub source: &'source mut R,
    pub memory: &'memory mut [Frame],
    pub ledger: &'ledger mut [Entry],
    pub host: &'host mut [Frame],
}
