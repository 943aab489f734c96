ghost use Rattle.std.specs.Prelude.{◌≡◌};
ghost use Rattle.gl_badge.specs.Named.{kind_of, number_of};

use gl_proof::ClaimKind;

/// What a badge can be claimed for.
#[derive(Clone, Copy, Debug, PartialEq, Eq)]
pub enum Badge {
    /// The free distance.
    Distance,
    /// The gain of height.
    Gain,
    /// The declared course.
    DeclaredGoal,
}

impl Badge {
    /// What stands in the place of an entrant's number in a proof.
    pub(crate) fn number(self) -> &'static str
        ensures { result.now ≡ number_of self }
    {
        match self {
            Badge::Distance => "DISTANCE",
            Badge::Gain => "GAIN",
            Badge::DeclaredGoal => "GOAL",
        }
    }

    /// The word of its kind in a proof.
    pub(crate) fn kind(self) -> ClaimKind
        ensures { result ≡ kind_of self }
    {
        match self {
            Badge::Distance => ClaimKind::Free,
            Badge::Gain => ClaimKind::Out,
            Badge::DeclaredGoal => ClaimKind::Area,
        }
    }
}
