//! Worked examples of the rules and of the history, which the prover computes: eleven messages over
//! an account book; an authorisation that gets no answer at first, over a bad line; and a capture
//! that is undone after its batch has closed.
#![tactic(auto)]

ghost use Rattle.worked.specs.Histories.{WorkedHistories};
ghost use Rattle.worked.specs.Meeting.{WorkedExamples};

/// The lines of the sample meeting, and the two cases of an unanswered authorisation, as the rules
/// give them. It does nothing; what it promises is the statement.
pub fn worked_cases()
    ensures { WorkedExamples }
{}

/// The words of the history at work: on the sample meeting; on an authorisation that got no answer,
/// before and after its repeat; and, with the answers, on a capture that is undone after its batch
/// has closed. It does nothing; what it promises is the statement.
pub fn worked_histories()
    ensures { WorkedHistories }
{}
