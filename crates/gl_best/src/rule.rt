use atomic_table::{Join, Play, Split, TableRule};
use std::collections::LinkedList;

/// What a seat knows: the greatest word that it has seen and the greatest that it has raised, 0 for
/// none and total plus one else; and the numbers that stand with it. No value of it is made.
pub struct View {
    pub seen: u64,
    pub raised: u64,
    pub numbers: LinkedList<u64>,
}

/// What holds of the word and of all seats between any two steps.
pub(crate) struct Greatest;

impl TableRule<(), View, ()> for Greatest {
    ghost use Rattle.gl_best.specs.Rule.{IsKept, first_view};

    ghost holds = { λ key state. IsKept state.words state.views };

    ghost first = { λ key. first_view };
}

/// The word is read.
pub(crate) struct Looks;

impl Play<(), View> for Looks {
    ghost use Rattle.std.specs.Prelude.{◌≡◌};
    ghost use Rattle.gl_best.specs.Code.Steps.{Looked};

    ghost then = { λ step before found after. Looked before.0 found after.0
        × (after.1 ≡ before.1) };
}

/// The word becomes the greater of itself and a number.
pub(crate) struct Raises;

impl Play<(), View> for Raises {
    ghost use Rattle.std.specs.Prelude.{◌≡◌};
    ghost use Rattle.gl_best.specs.Code.Steps.{Raised};

    ghost then = { λ step before found after. Raised step.first before.0 found after.0
        × (after.1 ≡ before.1) };
}

/// A seat gives its greatest number to a new one, or takes in the numbers of another.
pub(crate) struct Numbers;

impl Split<View> for Numbers {
    ghost use Rattle.gl_best.specs.Steps.{kept_of, given_of};

    ghost left = { kept_of };

    ghost right = { given_of };
}

impl Join<View> for Numbers {
    ghost use Rattle.gl_best.specs.Steps.{both_of};
    ghost use Rattle.gl_best.specs.Code.Steps.{spent};

    ghost both = { both_of };

    ghost spent = { spent };
}
