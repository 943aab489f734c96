ghost use Rattle.std.specs.Prelude.{◌≡◌, ◌∷◌, [], IfOk};
ghost use Rattle.gl_goal.specs.FreeGoal.{rule_of};
ghost use Rattle.gl_goal.specs.Goal.{IsGoal, IsLegal};
ghost use Rattle.gl_flights.specs.Free.{IsFreeText, whole_free_goal};

use crate::best::best_lines;
use gl_free::best_free;
use gl_goal::FreeGoal;
use gl_igc::Recording;
use std::alloc::{AllocError, Global};

/// How much lower the last fix may be than the first, in metres.
const MOST_LOSS: i32 = 1_000;

/// The goal of the free distance over all fixes of a recording. The only error is want of memory.
pub fn whole_free_goal(alloc: Global, recording: &Recording) -> Result<FreeGoal, AllocError>
    ensures rule { IfOk result (λ goal. rule_of goal ≡ whole_free_goal recording.now.fixes) }
    ensures well_formed { IfOk result (λ goal. IsGoal (rule_of goal)) }
    ensures legal { IfOk result (λ goal. IsLegal (rule_of goal) (0 ∷ 0 ∷ 0 ∷ 0 ∷ 0 ∷ [])) }
{
    let fixes = recording.fixes.as_slice();
    let last = fixes.len() - 1;
    FreeGoal::new(alloc, fixes, 0, last as u32, MOST_LOSS)
}

/// The two lines of the best free distance of a recording.
pub fn free_of_recording(alloc: Global, recording: &Recording) -> Result<Vec<u8>, AllocError>
    ensures { IfOk result (λ text. IsFreeText recording.now text.items) }
{
    let goal = whole_free_goal(alloc, recording)?;
    let best = best_free(alloc, &goal)?;
    best_lines(alloc, "FREE", &goal, &best)
}
