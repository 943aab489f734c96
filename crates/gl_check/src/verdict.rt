ghost use Rattle.std.specs.Prelude.{◌≡◌};
ghost use Rattle.gl_check.specs.Verdict.{verdict_said};

use gl_box::Said;

/// What is said of a claim. Boxes count from 1, and a number above 4,294,967,295 is that one.
#[derive(Clone, Copy, Debug, PartialEq, Eq)]
pub enum Verdict {
    /// The claim is a certificate: its total is the optimum.
    Yes,
    /// The claim has a total, and no legal choice has its fixes.
    Fixes,
    /// The fixes aren't worth the total.
    Total,
    /// The boxes before this one are already the whole.
    Extra(u32),
    /// The boxes up to this one begin no partition of the whole by splits.
    Place(u32),
    /// This box isn't closed for the total by the reason that its letter names.
    Cell(u32),
    /// The boxes end before the whole is covered.
    Open,
}

impl From<Said> for Verdict {
    ghost from_gives = { λ said verdict. verdict ≡ verdict_said said };

    fn from(said: Said) -> Verdict {
        match said {
            Said::NoneWrong => Verdict::Yes,
            Said::ExtraBox(number) => Verdict::Extra(number),
            Said::StrayBox(number) => Verdict::Place(number),
            Said::UnclosedBox(number) => Verdict::Cell(number),
            Said::Unfinished => Verdict::Open,
        }
    }
}
