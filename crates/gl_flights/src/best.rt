ghost use Rattle.std.specs.Prelude.{IfOk, Some};
ghost use Rattle.gl_box.specs.Tuple.{places_of};
ghost use Rattle.gl_goal.specs.Goal.{IsOptimum, IsReached};
ghost use Rattle.gl_flights.specs.Best.{IsBestText};

use gl_answer::distance_lines;
use gl_goal::{Best, Goal, fix_numbers};
use std::alloc::{AllocError, Global};

/// The two lines of the best of a goal, after a word.
pub fn best_lines<G: Goal>(
    alloc: Global,
    word: &str,
    goal: &G,
    best: &Best,
) -> Result<Vec<u8>, AllocError>
    requires reached { IsReached (G.rule goal.now) best.now.total (places_of best.now.tuple) }
    requires optimum { IsOptimum (G.rule goal.now) (Some best.now.total) }
    ensures { IfOk result (λ text. IsBestText (G.rule goal.now) word.now text.items) }
{
    let numbers = fix_numbers(alloc, goal, &best.tuple)?;
    distance_lines(alloc, word, best.total, "FIXES", &numbers)
}
