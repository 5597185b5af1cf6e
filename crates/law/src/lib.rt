//! The law over runs: what is true after any messages, in any order, over any host.
#![tactic(auto)]

ghost use Rattle.law.specs.Between.{KeptBetween};
ghost use Rattle.law.specs.Carried.{OwnBytes};
ghost use Rattle.law.specs.Stands.{LawOverRuns};

/// The law over runs, under one name. Whatever was sent, it stands of what the host holds and what
/// was answered (`Observed`), of what the books show (`Booked`), and of what a repeat would get now
/// (`RepeatsStand`). The function does nothing; what it promises is the statement.
///
/// `Reached` is the invariant by which the calls of the gateway carry the law: it begins when a
/// gateway is made, each message carries it from any history to the longer one, and the law stands
/// wherever it holds (`law`). Between messages, where a stand-in may be told to send on, the books
/// and every amount held stay the same, and that keeps it (`between`). A message that is performed
/// counts as its own bytes (`bytes`). The calls promise besides that a repeat leaves the host the
/// same value.
pub fn law_over_runs()
    ensures law { LawOverRuns }
    ensures between { KeptBetween }
    ensures bytes { OwnBytes }
{}
