// A playback and a capture stream together: any calls of both, and the account of every frame and every lease after them.
#![tactic(auto)]

pub mod table;
pub mod trying;
