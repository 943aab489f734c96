//! What the answers are like, beside their rules. Each function states one law, which holds of
//! every folder; a call of it does nothing.
ghost use Rattle.gl_day_claims.specs.Laws.{HasOneAnswer};

/// A folder has one answer to `score`: two that are both right end with one status, say one sheet,
/// and append proofs that have the same claims with the same totals; only the choice of fixes and
/// boxes is free.
pub fn one_answer()
    ensures { HasOneAnswer }
{}
