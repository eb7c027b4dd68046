// A ring of elements that can be copied whole, over a memory that is lent to it.
// What the ring holds, oldest first, changes at its two ends only: an element goes in at the newest end and comes out
// at the oldest, in order, and none is overwritten while it is held.
// A ring has at least one place, and its size is a u32. Nothing is done over a memory of another length than the size.
#![tactic(auto)]

pub mod does_not_fit;
pub mod ring;
pub mod span;
