// The rule that every deque of cells keeps, and what each step tells its hand or its pass.
ghost use Rattle.std.specs.Prelude.{◌≡◌, [], ◌∷◌};
ghost use Rattle.gl_deal.specs.declared.view.View.TheVariants.{OfHand, OfPass};
ghost use Rattle.gl_deal.specs.Views.{as_hand, as_pass, new_hand, new_pass, with_put, with_settled, with_stolen, with_taken};
ghost use Rattle.gl_deal.specs.Code.Deal.{with_earlier, with_later};
ghost use Rattle.gl_deal.specs.Rule.{HasSettledAll, IsShared, TookAllItPut};

use crate::view::View;
use crossbeam_deque::protocol::{Join, Outcome, Protocol, Split};
use gl_box::Cell;

/// The rule of a deque. It begins as that of a single worker.
pub struct Dealing;

impl Protocol<Cell, View> for Dealing {
    ghost holds = { IsShared };

    ghost first = { OfHand (new_hand 0 1) };

    ghost guest = { OfPass (new_pass []) };
}

/// The hand puts a cell.
pub struct Puts;

impl Outcome<Cell, View> for Puts {
    ghost then = { λ view cells after. after ≡ OfHand (with_put (as_hand view) cells) };
}

/// The hand takes a cell, or finds none.
pub struct Takes;

impl Outcome<Cell, View> for Takes {
    ghost then = { λ view cells after. after ≡ OfHand (with_taken (as_hand view) cells) };

    ghost empty = { λ view. HasSettledAll (as_hand view) → TookAllItPut (as_hand view) };
}

/// A pass takes a cell.
pub struct Steals;

impl Outcome<Cell, View> for Steals {
    ghost then = { λ view cells after. after ≡ OfPass (with_stolen (as_pass view) cells) };
}

/// A worker joins before the owner, and a pass serves it.
pub struct Earlier;

impl Split<View> for Earlier {
    ghost left = { λ view. OfHand (with_earlier (as_hand view)) };

    ghost right = { λ view. OfPass (new_pass ((as_hand view).owner ∷ [])) };
}

/// A worker joins after the others, and a pass serves it.
pub struct Later;

impl Split<View> for Later {
    ghost left = { λ view. OfHand (with_later (as_hand view)) };

    ghost right = { λ view. OfPass (new_pass ((as_hand view).workers ∷ [])) };
}

/// The hand takes a pass in, which serves nobody then.
pub struct Settles;

impl Join<View> for Settles {
    ghost both = { λ view other. OfHand (with_settled (as_hand view) (as_pass other)) };

    ghost spent = { OfPass (new_pass []) };
}
