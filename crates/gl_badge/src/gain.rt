ghost use Rattle.std.specs.Prelude.{◌≤◌, length};

use gl_goal::Hulls;

/// The gain of height over all fixes of a recording: two fixes in time order, worth the metres by
/// which the second is higher than the first, and 0 where it isn't.
#[derive(Debug, Drop)]
pub struct GainGoal {
    pub(crate) hulls: Hulls,
    pub ghost some_fix: { 1 ≤ length hulls },
    pub ghost at_most_90000: { length hulls ≤ 90_000 },
}
