use gl_proof::{Claim, ClaimKind};

/// The totals that the claims of a flight have so far, in centimetres: for the distance of the
/// task, for the free distance and for the triangle.
#[derive(Clone, Copy, Debug, PartialEq, Eq)]
pub struct Totals {
    pub distance: Option<u64>,
    pub free: Option<u64>,
    pub triangle: Option<u64>,
}

impl Totals {
    ghost use Rattle.std.specs.Prelude.{ℕ, List, [], ◌∷◌, ◌++◌};
    ghost use Rattle.gl_proof.specs.Claim.{Statement, statement_of};
    ghost use Rattle.gl_day.specs.Totals.{AreTotals};

    /// The totals before the first claim.
    pub const NONE: Totals = Totals {
        distance: None,
        free: None,
        triangle: None,
    };

    /// Takes the next claim of the flight.
    pub fn note(&mut self, claim: &Claim)
        ensures { (statements : List Statement) → AreTotals statements self.old
            → AreTotals (statements ++ statement_of claim.now ∷ []) self.new }
    {
        match claim.kind {
            ClaimKind::Area | ClaimKind::Out => self.distance = self.distance.or(claim.total),
            ClaimKind::Free => self.free = self.free.or(claim.total),
            ClaimKind::Triangle => self.triangle = self.triangle.or(claim.total),
        }
    }
}
