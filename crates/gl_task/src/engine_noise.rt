ghost use Rattle.std.specs.Prelude.{◌≡◌, ◌≤◌, [], ◌∷◌};
ghost use Rattle.std.specs.Option.{ForNone};

use crate::steward::Steward;
use crate::task::LocalRules;
use gl_igc::Fix;

/// How many noisy fixes cost points.
const NOISY_FIXES: u32 = 3;

/// A steward of the engine: it owes the engine points of the local rules where at least three fixes
/// of the flight had a noise of at least the engine level, and nothing where there is no level.
#[derive(Debug, Drop)]
pub struct EngineNoise {
    level: Option<u16>,
    points: u32,
    noisy: u32,
    ghost at_most_three: { noisy ≤ 3 },
    ghost none_without: { ForNone level (noisy ≡ 0) },
}

impl EngineNoise {
    /// A steward that holds no level yet.
    pub fn new() -> EngineNoise
        ensures { ⟦<EngineNoise as Steward>⟧.held result ≡ 0 ∷ 0 ∷ 0 ∷ 0 ∷ [] }
    {
        EngineNoise {
            level: None,
            points: 0,
            noisy: 0,
        }
    }
}

impl Steward for EngineNoise {
    ghost use Rattle.gl_task.specs.EngineNoise.{noise_fed, noise_list, noise_opening, noise_owed};

    ghost held = { λ it. noise_list it.level it.points it.noisy };

    ghost opening = { λ _. noise_opening };

    ghost fed = { λ _. noise_fed };

    ghost owed = { λ _. noise_owed };

    fn begin(&mut self, rules: &LocalRules) {
        *self = EngineNoise {
            level: rules.engine_level,
            points: rules.engine_points,
            noisy: 0,
        };
    }

    fn feed(&mut self, fix: &Fix) {
        if let (Some(level), Some(noise)) = (self.level, fix.enl)
            && noise >= level
        {
            self.noisy = NOISY_FIXES.min(self.noisy + 1);
        }
    }

    fn due(&self) -> u32 {
        if self.noisy == NOISY_FIXES {
            self.points
        } else {
            0
        }
    }
}
