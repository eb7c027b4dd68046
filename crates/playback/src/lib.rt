// A playback stream over leased ring areas: frames are committed lease by lease and played tick by tick into any sink.
// Each call's contract is its rule: it says all of the answer, the stream and the memory, obeyed or refused.
#![tactic(auto)]

pub mod lease;
pub mod playback;
mod playing;
pub mod situation;
