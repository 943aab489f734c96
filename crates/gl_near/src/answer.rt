ghost use Rattle.std.specs.Prelude.{◌≡◌};
ghost use Rattle.gl_near.specs.Verdict.{verdict_said};

use gl_box::Said;

/// What is said of a claim. Boxes count from 1, and a number above 4,294,967,295 is that one.
#[derive(Clone, Copy, Debug, PartialEq, Eq)]
pub enum NearVerdict {
    /// The claim is a certificate: its total is the least distance.
    Yes,
    /// The claim has a total, and its pair isn't there or doesn't fit.
    Pair,
    /// The pair has another distance.
    Total,
    /// The boxes before this one are already the whole.
    Extra(u32),
    /// The boxes up to this one begin no partition of the whole by splits.
    Place(u32),
    /// This box isn't closed for the total by the reason that its letter names.
    Cell(u32),
    /// The boxes end before the whole is covered.
    Open,
}

impl From<Said> for NearVerdict {
    ghost from_gives = { λ said verdict. verdict ≡ verdict_said said };

    fn from(said: Said) -> NearVerdict {
        match said {
            Said::NoneWrong => NearVerdict::Yes,
            Said::ExtraBox(number) => NearVerdict::Extra(number),
            Said::StrayBox(number) => NearVerdict::Place(number),
            Said::UnclosedBox(number) => NearVerdict::Cell(number),
            Said::Unfinished => NearVerdict::Open,
        }
    }
}
