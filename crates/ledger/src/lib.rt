// The ledger of a stream: a ring of entries in lent memory, each entry written once and taken once.
// The stream keeps the span; what stands in the memory is told by the rules of the account.
#![tactic(auto)]

pub mod noting;
