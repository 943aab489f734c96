ghost use Rattle.std.specs.Prelude.{◌≡◌, ◌↔◌, ℕ, List, map, IfOk};
ghost use Rattle.gl_box.specs.Cell.{Holds};
ghost use Rattle.gl_box.specs.Frontier.{mult};
ghost use Rattle.gl_goal.specs.Goal.{IsOptimum, whole_cell};
ghost use Rattle.gl_box.specs.InLists.{boxes_in};
ghost use Rattle.gl_check.specs.Checked.{IsCertified, IsCheckedAs};
ghost use Rattle.gl_check.specs.declared.verdict.Verdict.{Verdict};
ghost use Rattle.gl_check.specs.declared.verdict.Verdict.TheVariants.{Yes};

use crate::boxes::said_of;
use crate::choice::fault_of_choice;
use crate::verdict::Verdict;
use gl_goal::Goal;
use gl_proof::Claim;
use std::alloc::{AllocError, Global};

/// What is said of a claim. The only error is want of memory.
fn verdict_of<G: Goal>(alloc: Global, goal: &G, claim: &Claim) -> Result<Verdict, AllocError>
    ensures { IfOk result (IsCheckedAs (G.rule goal.now) claim.now) }
{
    if let Some(verdict) = fault_of_choice(goal, claim.total, claim.fixes.as_slice()) {
        return Ok(verdict);
    }
    Ok(Verdict::from(said_of(alloc, goal, claim.total, &claim.cells)?))
}

/// Checks a claim against a goal: `Yes` exactly where its boxes certify its total and its fixes,
/// and else the first thing that is wrong: with the fixes, then with the total, then box by box.
/// Nothing is taken on trust of whoever made the claim. Where the answer is `Yes`, the total is the
/// optimum of the goal, and each choice of fixes lies in exactly one of the boxes. The only error
/// is
/// want of memory.
pub fn check_claim<G: Goal>(alloc: Global, goal: &G, claim: &Claim) -> Result<Verdict, AllocError>
    ensures verdict { IfOk result (IsCheckedAs (G.rule goal.now) claim.now) }
    ensures only { IfOk result (λ verdict. (other : Verdict)
        → IsCheckedAs (G.rule goal.now) claim.now other → other ≡ verdict) }
    ensures yes { IfOk result (λ verdict.
        (verdict ≡ Yes) ↔ IsCertified (G.rule goal.now) claim.now) }
    ensures optimum { IfOk result (λ verdict.
        verdict ≡ Yes → IsOptimum (G.rule goal.now) claim.now.total) }
    ensures once { IfOk result (λ verdict. verdict ≡ Yes → (tuple : List ℕ)
        → Holds (whole_cell (G.rule goal.now).axes) tuple
        → mult (map (λ box. box.0) (boxes_in claim.now.cells)) tuple ≡ 1) }
{
    verdict_of(alloc, goal, claim)
}
