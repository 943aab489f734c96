ghost use Rattle.std.specs.Prelude.{[]};

use gl_igc::Fix;
use gl_task::{LocalRules, Steward};

/// A steward that owes the greatest number there is for each flight.
#[derive(Drop)]
pub struct Severe;

impl Steward for Severe {
    ghost held = { λ _. [] };

    ghost opening = { λ _ _. [] };

    ghost fed = { λ _ _ _. [] };

    ghost owed = { λ _ _. 4_294_967_295 };

    fn begin(&mut self, _rules: &LocalRules) {}

    fn feed(&mut self, _fix: &Fix) {}

    fn due(&self) -> u32 {
        u32::MAX
    }
}
