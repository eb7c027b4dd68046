// The words in which streams are called and answer: leases, ledger entries, answers, and calls as data.
// A call as data carries everything that the call is given, so that any list of calls can be tried.
#![tactic(auto)]

pub mod answer;
pub mod call;
pub mod elsewhere;
pub mod entry;
pub mod lease;
pub mod lease_parts;
pub mod verdict;
