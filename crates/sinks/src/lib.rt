// Sinks: what takes frames one by one and brings sound out at its bottom. Tapes that keep what they hear, and layers
// over any sink. Each shows what it makes of every list of frames, and is proved to have heard exactly that.
#![tactic(auto)]

pub mod byte_tape;
pub mod fault;
pub mod feed;
pub mod fir;
pub mod frame_tape;
pub mod gain;
pub mod keep;
pub mod layer;
mod marking;
pub mod marks;
pub mod sink;
pub mod stop;
mod tape;
