// Sources of frames: what a source is, one that reads bytes, one that counts in steps, and a loop that gets frames from any source.
// Key property: a source answers with the first of the frames still to come, or with none exactly when none is to come.
// Limit: a source knows all its frames from the start; nothing here waits for frames that a device has yet to make.
#![tactic(auto)]

pub mod byte_source;
pub mod getting;
pub mod source;
pub mod step_source;
