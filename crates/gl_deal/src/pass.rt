ghost use Rattle.std.specs.Prelude.{◌≡◌, true, length};
ghost use Rattle.crossbeam_deque.specs.Handles.{IsPassOf, stealer_deque, view};
ghost use Rattle.gl_deal.specs.Views.{as_pass, is_pass};

use crate::rule::{Dealing, Steals};
use crate::view::View;
use crossbeam_deque::{Pass as Token, Steal as Stolen, Stealer};
use gl_box::Cell;
use std::alloc::Global;

/// What an attempt to steal answers.
#[derive(Clone, Copy, Debug, PartialEq, Eq)]
pub enum Steal {
    /// The oldest cell of the deque.
    Got(Cell),
    /// There was none, or a last one that the owner may have been taking.
    Empty,
    /// Another thread took a cell first. Try again.
    Retry,
}

/// A worker's end of another worker's deque: it steals the oldest cell from there.
#[derive(Drop)]
pub struct Pass {
    stealer: Stealer<Cell, Global, View, Dealing>,
    token: Token<Cell, View>,
    ghost of_deque: { IsPassOf (stealer_deque stealer) token },
    ghost of_pass: { is_pass (view token) ≡ true },
    ghost serves_one: { length (as_pass (view token)).serves ≡ 1 },
}

impl Pass {
    ghost use Rattle.std.specs.Prelude.{◌≡◌, true, [], ◌∷◌, length};
    ghost use Rattle.crossbeam_deque.specs.Handles.{IsPassOf, stealer_deque, view};
    ghost use Rattle.gl_deal.specs.Views.{as_pass, is_pass, with_stolen};
    ghost use Rattle.gl_deal.specs.Tokens.{pass_deque, pass_view};
    ghost use Rattle.gl_deal.specs.Steals.{MatchSteal};

    /// A pass that serves one worker, of the deque whose token this is.
    pub(crate) fn new(
        stealer: Stealer<Cell, Global, View, Dealing>,
        token: Token<Cell, View>,
    ) -> Pass
        requires deque { IsPassOf (stealer_deque stealer) token }
        requires pass { is_pass (view token) ≡ true }
        requires one { length (as_pass (view token)).serves ≡ 1 }
        ensures deque { pass_deque result ≡ stealer_deque stealer }
        ensures view { pass_view result ≡ as_pass (view token) }
    {
        Pass { stealer, token }
    }

    /// The token of the pass, to be taken in by the hand of its deque.
    pub(crate) fn into_token(self) -> Token<Cell, View>
        ensures deque { IsPassOf (pass_deque self) result }
        ensures pass { is_pass (view result) ≡ true }
        ensures view { as_pass (view result) ≡ pass_view self }
    {
        let Pass { stealer, token } = self;
        drop(stealer);
        token
    }

    /// Steals the oldest cell.
    #[inline]
    pub fn steal(&mut self) -> Steal
        ensures deque { pass_deque self.new ≡ pass_deque self.old }
        ensures view { MatchSteal result
            (λ cell. pass_view self.new ≡ with_stolen (pass_view self.old) (cell ∷ []))
            (pass_view self.new ≡ pass_view self.old)
            (pass_view self.new ≡ pass_view self.old) }
    {
        match self.stealer.steal_as::<Steals>(&mut self.token) {
            Stolen::Success(cell) => Steal::Got(cell),
            Stolen::Empty => Steal::Empty,
            Stolen::Retry => Steal::Retry,
        }
    }
}
