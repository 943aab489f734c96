ghost use Rattle.std.specs.Prelude.{◌≡◌, ◌+◌, ◌≤◌, All, IfOk, OnOk, length, map};
ghost use Rattle.gl_deal.specs.Views.{new_hand};
ghost use Rattle.gl_deal.specs.Tokens.{end_of, hand_deque, hand_view};
ghost use Rattle.gl_deal.specs.Code.Deal.{AreDealt, ArePiles};
ghost use Rattle.gl_deal.specs.Deal.{IsDeal, passes_to};

use crate::hand::Hand;
use crate::pass::Pass;
use crate::place::Place;
use std::alloc::{AllocError, Global};

/// So many hands, each of a worker who is alone. The only error is want of memory.
fn lone_hands(alloc: Global, workers: usize) -> Result<Vec<Hand>, AllocError>
    ensures count { IfOk result (λ hands. length hands.items ≡ workers) }
    ensures alone { IfOk result (λ hands. All (λ hand. hand_view hand ≡ new_hand 0 1) hands.items) }
{
    let mut hands = Vec::with_capacity(alloc, workers)?;
    for _ in 0..workers {
        hands.push(Hand::alone(alloc)?)?;
    }
    Ok(hands)
}

/// A pass to each other deque for the next worker. The only error is want of memory.
fn passes_for(alloc: Global, worker: usize, hands: &mut [Hand]) -> Result<Vec<Pass>, AllocError>
    requires { AreDealt worker hands.old }
    ensures deques { map hand_deque hands.new ≡ map hand_deque hands.old }
    ensures hands { OnOk result (AreDealt (worker + 1) hands.new) }
    ensures passes { IfOk result
        (λ passes. map end_of passes.items ≡ passes_to worker (map hand_deque hands.old)) }
{
    let mut passes = Vec::with_capacity(alloc, hands.len())?;
    for owner in 0..hands.len() {
        if owner != worker {
            passes.push(hands[owner].serve(owner, worker)?)?;
        }
    }
    Ok(passes)
}

/// The passes of each worker in turn. The only error is want of memory.
fn all_passes(alloc: Global, hands: &mut [Hand]) -> Result<Vec<Vec<Pass>>, AllocError>
    requires { AreDealt 0 hands.old }
    ensures deques { map hand_deque hands.new ≡ map hand_deque hands.old }
    ensures hands { OnOk result (AreDealt (length hands.old) hands.new) }
    ensures count { IfOk result (λ piles. length piles.items ≡ length hands.old) }
    ensures piles { IfOk result (λ piles. ArePiles (map hand_deque hands.old) piles.items) }
{
    let mut piles = Vec::with_capacity(alloc, hands.len())?;
    for worker in 0..hands.len() {
        piles.push(passes_for(alloc, worker, hands)?)?;
    }
    Ok(piles)
}

/// Each hand with the passes of its worker. The only error is want of memory.
fn paired(alloc: Global, hands: Vec<Hand>, piles: Vec<Vec<Pass>>) -> Result<Vec<Place>, AllocError>
    requires { length hands.items ≡ length piles.items }
    ensures hands { IfOk result (λ places. map (λ place. place.hand) places.items ≡ hands.items) }
    ensures piles { IfOk result (λ places. map (λ place. place.passes) places.items ≡ piles.items) }
{
    let mut places = Vec::with_capacity(alloc, hands.len())?;
    for (hand, passes) in hands.into_iter().zip(piles) {
        places.push(Place { hand, passes })?;
    }
    Ok(places)
}

/// Deals each of 1 to 16 workers a deque of its own, and passes to the deques of the others. The
/// only error is want of memory.
pub fn deal(alloc: Global, workers: u32) -> Result<Vec<Place>, AllocError>
    requires some { 1 ≤ workers }
    requires most { workers ≤ 16 }
    ensures { IfOk result (λ places. IsDeal workers places.items) }
{
    let mut hands = lone_hands(alloc, workers as usize)?;
    let piles = all_passes(alloc, hands.as_mut_slice())?;
    paired(alloc, hands, piles)
}
