// A capture stream over leased ring areas: frames come tick by tick from any source and are read lease by lease.
// Each call's contract is its rule: it says all of the answer, the stream and the memory, obeyed or refused.
#![tactic(auto)]

pub mod capture;
pub mod lease;
pub mod situation;
mod storing;
