//! What judging is like, beside its rules. Each function states one law, which holds of every
//! flight; a call of it does nothing.
ghost use Rattle.gl_judge.specs.Laws.{HasOneOutcome, HasSomeOutcome};

/// A flight has one outcome: two ways in which a recording is judged by one task and one airspace
/// are one.
pub fn one_outcome()
    ensures { HasOneOutcome }
{}

/// Every flight has an outcome, whatever its recording, its task and its airspace.
pub fn some_outcome()
    ensures { HasSomeOutcome }
{}
