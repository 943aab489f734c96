//! What the two stewards owe for a flight, in words that speak of no list. Each function states one
//! law, which holds of every flight; a call of it does nothing.
ghost use Rattle.gl_task.specs.Laws.{CeilingOwesTheGreatest, EngineNoiseOwesFromThreeOn};

/// The steward of the ceiling owes a point for each metre of the greatest height above the ceiling
/// that a fix of the flight has, and nothing without a ceiling.
pub fn ceiling_owes_the_greatest()
    ensures { CeilingOwesTheGreatest }
{}

/// The steward of the engine owes the engine points from three noisy fixes on, nothing for fewer,
/// and nothing without an engine level.
pub fn engine_noise_owes_from_three_on()
    ensures { EngineNoiseOwesFromThreeOn }
{}
