ghost use Rattle.std.specs.Prelude.{◌≡◌, [], ◌∷◌, MatchOption, map};
ghost use Rattle.gl_deal.specs.Tokens.{end_of, pass_deque, pass_view};
ghost use Rattle.gl_deal.specs.Views.{with_stolen};
ghost use Rattle.gl_pool.specs.Code.Taken.{FindsNone, Steals};
ghost use Rattle.gl_pool.specs.Taken.{Moves};

use crate::crowd::Crowd;
use crate::gate::Gate;
use gl_box::Cell;
use gl_deal::{Pass, Place, Steal};

/// How often each other deque is tried in a round.
const TRIES: u32 = 64;

/// Tries another deque once.
fn steal_from(pass: &mut Pass) -> Option<Cell>
    ensures { MatchOption result
        (end_of pass.new ≡ end_of pass.old)
        (λ cell. end_of pass.new
        ≡ (pass_deque pass.old, with_stolen (pass_view pass.old) (cell ∷ []))) }
{
    match pass.steal() {
        Steal::Got(cell) => Some(cell),
        Steal::Empty | Steal::Retry => None,
    }
}

/// Tries each other deque once, until one of them gives a cell.
fn steal_any(passes: &mut [Pass]) -> Option<Cell>
    ensures { MatchOption result
        (map end_of passes.new ≡ map end_of passes.old)
        (Steals (map end_of passes.old) (map end_of passes.new)) }
{
    for index in 0..passes.len() {
        if let Some(cell) = steal_from(&mut passes[index]) {
            return Some(cell);
        }
    }
    None
}

/// Rounds over the other deques, which end with the first cell that one of them gives, with a round
/// after which nobody has a cell any more, and at once if there are no other deques.
fn steal<K: Gate>(passes: &mut [Pass], gate: &K, crowd: &Crowd, number: u32) -> Option<Cell>
    ensures { MatchOption result
        (map end_of passes.new ≡ map end_of passes.old)
        (Steals (map end_of passes.old) (map end_of passes.new)) }
{
    if passes.is_empty() {
        return None;
    }
    for _ in 0..TRIES {
        if let Some(cell) = steal_any(passes) {
            return Some(cell);
        }
        if crowd.is_over() {
            return None;
        }
        gate.rest(number);
    }
    None
}

/// The next cell of a worker that is through with its last one, if it had any: the newest of its
/// own deque, or one from the others where that is empty. `None` where it is empty and a round over
/// the others gave nothing.
pub(crate) fn next_cell<K: Gate>(
    place: &mut Place,
    gate: &K,
    crowd: &Crowd,
    number: u32,
    had_any: bool,
) -> Option<Cell>
    ensures { MatchOption result
        (FindsNone place.old place.new)
        (λ cell. Moves place.old place.new (cell ∷ []) []) }
{
    match place.hand.take() {
        Some(cell) => {
            crowd.tell(had_any, true);
            Some(cell)
        }
        None => {
            crowd.tell(had_any, false);
            match steal(place.passes.as_mut_slice(), gate, crowd, number) {
                Some(stolen) => {
                    crowd.tell(false, true);
                    Some(stolen)
                }
                None => None,
            }
        }
    }
}
