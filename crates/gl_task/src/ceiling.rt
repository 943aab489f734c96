ghost use Rattle.std.specs.Prelude.{◌≡◌, [], ◌∷◌};
ghost use Rattle.std.specs.Option.{ForNone};

use crate::height::height;
use crate::steward::Steward;
use crate::task::LocalRules;
use gl_igc::Fix;

/// A steward of the ceiling: it owes the greatest number of metres by which a fix of the flight was
/// above the ceiling of the local rules, and nothing where there is no ceiling.
#[derive(Debug, Drop)]
pub struct Ceiling {
    ceiling: Option<u32>,
    above: u32,
    ghost above_none: { ForNone ceiling (above ≡ 0) },
}

impl Ceiling {
    /// A steward that holds no ceiling yet.
    pub fn new() -> Ceiling
        ensures { ⟦<Ceiling as Steward>⟧.held result ≡ 0 ∷ 0 ∷ 0 ∷ [] }
    {
        Ceiling {
            ceiling: None,
            above: 0,
        }
    }
}

impl Steward for Ceiling {
    ghost use Rattle.gl_task.specs.Ceiling.{ceiling_fed, ceiling_list, ceiling_opening, ceiling_owed};

    ghost held = { λ it. ceiling_list it.ceiling it.above };

    ghost opening = { λ _. ceiling_opening };

    ghost fed = { λ _. ceiling_fed };

    ghost owed = { λ _. ceiling_owed };

    fn begin(&mut self, rules: &LocalRules) {
        *self = Ceiling {
            ceiling: rules.ceiling.map(height),
            above: 0,
        };
    }

    fn feed(&mut self, fix: &Fix) {
        if let Some(ceiling) = self.ceiling {
            self.above = self.above.max(height(fix.alt).saturating_sub(ceiling));
        }
    }

    fn due(&self) -> u32 {
        self.above
    }
}
