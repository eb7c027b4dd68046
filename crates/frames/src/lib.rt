// Frames of two 16-bit samples, their four bytes, and the sums that layers apply to them.
// Every sum is proved to the bit against its definition in specs/, once, for all who use it.
#![tactic(auto)]

pub mod factor;
pub mod filter;
mod filtering;
pub mod frame;
pub mod gain;
mod keeping;
mod laws;
pub mod layout;
pub mod limit;
pub mod mix;
pub mod taps;
mod weighing;
