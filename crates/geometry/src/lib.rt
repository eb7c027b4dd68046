// The numbers that a stream is set up with, and the sums on its pointers.
// A Geometry is made by one check, and its numbers keep their rules from then on: no later call tests them again.
// Buffers have at most 65,536 frames, and pointers wrap below 2,147,483,647.
#![tactic(auto)]

pub mod geometry;
