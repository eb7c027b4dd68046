// The account of every frame and every lease.
#![tactic(auto)]

ghost use Rattle.account.specs.Promise.{AlwaysAccounted};

use sinks::sink::Sink;
use sources::source::Source;

// After every history of calls that went by their rules since set-up, the account holds.
pub fn account_stands<S: Sink, R: Source>()
    ensures { AlwaysAccounted S.Sink.shows R.Source.shows }
{}
