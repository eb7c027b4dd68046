// The words that a caller sees as numbers: why a call was refused, a stream's state, a ledger entry's kind and a stop's cause.
// Key property: each word has one number, no two words of a kind share one, and a number is read back as the word that has it.
// Limit: a stop's cause is any number, since a sink may have causes of its own; only two are named here.
#![tactic(auto)]

ghost use Rattle.codes.specs.EntryKinds.{kind_number};
ghost use Rattle.codes.specs.Numbered.{Undone};
ghost use Rattle.codes.specs.Refusals.{refusal_number};
ghost use Rattle.codes.specs.States.{state_number};

pub mod cause;
pub mod entry_kind;
pub mod refusal;
pub mod state;
pub mod unknown_number;

// Whoever reads back the number of a word gets that word, and no other.
pub fn numbers_read_back()
    ensures refusals { Undone refusal_number }
    ensures states { Undone state_number }
    ensures kinds { Undone kind_number }
{}
