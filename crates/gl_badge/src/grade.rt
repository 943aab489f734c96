ghost use Rattle.std.specs.Prelude.{◌≡◌};
ghost use Rattle.gl_badge.specs.Grades.{grade_of, grade_word, limit_of, reaches};

use crate::badge::Badge;

/// How high a badge was reached.
#[derive(Clone, Copy, Debug, PartialEq, Eq)]
pub enum Grade {
    /// Not its lowest limit.
    Unreached,
    Silver,
    Gold,
    Diamond,
}

/// What has to be reached for a grade: centimetres of a distance or a declared course, metres of a
/// gain. `None` where a badge hasn't the grade.
fn limit(badge: Badge, grade: Grade) -> Option<u64>
    ensures { result ≡ limit_of badge grade }
{
    match (badge, grade) {
        (_, Grade::Unreached) => Some(0),
        (Badge::Distance, Grade::Silver) => Some(5_000_000),
        (Badge::Distance, Grade::Gold) => Some(30_000_000),
        (Badge::Distance, Grade::Diamond) => Some(50_000_000),
        (Badge::Gain, Grade::Silver) => Some(1_000),
        (Badge::Gain, Grade::Gold) => Some(3_000),
        (Badge::Gain, Grade::Diamond) => Some(5_000),
        (Badge::DeclaredGoal, Grade::Silver | Grade::Gold) => None,
        (Badge::DeclaredGoal, Grade::Diamond) => Some(30_000_000),
    }
}

/// Whether a value reaches a grade of a badge.
fn is_reached(badge: Badge, grade: Grade, value: u64) -> bool
    ensures { result ≡ reaches value (limit_of badge grade) }
{
    match limit(badge, grade) {
        Some(least) => least <= value,
        None => false,
    }
}

impl Grade {
    /// The highest grade of a badge whose limit is reached: by centimetres of a distance or a
    /// declared course, by metres of a gain.
    #[tactic(auto, unfolding(crate::specs::Grades::grade_of))]
    pub(crate) fn of(badge: Badge, value: u64) -> Grade
        ensures { result ≡ grade_of badge value }
    {
        if is_reached(badge, Grade::Diamond, value) {
            Grade::Diamond
        } else if is_reached(badge, Grade::Gold, value) {
            Grade::Gold
        } else if is_reached(badge, Grade::Silver, value) {
            Grade::Silver
        } else {
            Grade::Unreached
        }
    }

    /// The word of the grade.
    pub(crate) fn word(self) -> &'static str
        ensures { result.now ≡ grade_word self }
    {
        match self {
            Grade::Unreached => "NONE",
            Grade::Silver => "SILVER",
            Grade::Gold => "GOLD",
            Grade::Diamond => "DIAMOND",
        }
    }
}
