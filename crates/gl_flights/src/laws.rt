//! What the answers are like, beside their rules. Each function states one law, which holds of
//! every folder; a call of it does nothing.
ghost use Rattle.gl_flights.specs.Series.{HasOneSeries};

/// A folder has one answer to `series`: two that are both right are one.
pub fn one_series()
    ensures { HasOneSeries }
{}
