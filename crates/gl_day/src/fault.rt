ghost use Rattle.std.specs.Prelude.{◌≡◌, codes};

/// Why a proof isn't that of a day.
#[derive(Clone, Copy, Debug, PartialEq, Eq)]
pub enum Fault {
    /// The proof has no claim of this number.
    Missing,
    /// The claim is another entrant's or of another kind.
    Name,
    /// The claim has a total, and no legal choice has its fixes.
    Fixes,
    /// The fixes aren't worth the total.
    Total,
    /// The boxes before this one are already the whole.
    Extra(u32),
    /// The boxes up to this one begin no partition of the whole by splits.
    Place(u32),
    /// This box isn't closed for the total by the reason that its letter names.
    Cell(u32),
    /// The boxes end before the whole is covered.
    Open,
    /// The proof goes on behind the last claim that is expected.
    Surplus,
}

impl Fault {
    ghost use Rattle.gl_day.specs.Fault.{box_of_fault, word_of};

    /// The word that says it.
    pub fn word(self) -> &'static [u8]
        ensures { result.now ≡ word_of self }
    {
        match self {
            Fault::Missing => b"MISSING",
            Fault::Name => b"NAME",
            Fault::Fixes => b"FIXES",
            Fault::Total => b"TOTAL",
            Fault::Extra(_) => b"EXTRA",
            Fault::Place(_) => b"PLACE",
            Fault::Cell(_) => b"CELL",
            Fault::Open => b"OPEN",
            Fault::Surplus => b"SURPLUS",
        }
    }

    /// The number of the box that it is about; boxes count from 1, and it is 0 where it is about no
    /// single box.
    pub fn box_number(self) -> u32
        ensures { result ≡ box_of_fault self }
    {
        match self {
            Fault::Extra(number) | Fault::Place(number) | Fault::Cell(number) => number,
            Fault::Missing
            | Fault::Name
            | Fault::Fixes
            | Fault::Total
            | Fault::Open
            | Fault::Surplus => 0,
        }
    }
}

/// A proof isn't that of a day: the first claim that is wrong, counted among those that are
/// expected from 1, and why.
#[derive(Clone, Copy, Debug, PartialEq, Eq)]
pub struct NotProved {
    pub claim: usize,
    pub fault: Fault,
}

/// What is said of a proof.
#[derive(Clone, Copy, Debug, PartialEq, Eq)]
pub enum Checked {
    /// It has exactly the claims that are expected, so many, and each is a certificate.
    Accepted { claims: usize },
    /// It isn't that of the day.
    Refused(NotProved),
}
