ghost use Rattle.std.specs.Prelude.{◌≡◌, ℕ, List, IfOk, IsSome, IsTrue};
ghost use Rattle.gl_goal.specs.AnyGoal.{any_rule};
ghost use Rattle.gl_goal.specs.Goal.{IsLegal, IsOptimum};
ghost use Rattle.gl_plain.specs.Found.{IsCertified};
ghost use Rattle.gl_goal.specs.Best.{IsSound, fixes_of, total_of};
ghost use Rattle.gl_proof.specs.Claim.{IsWritable, statement_of};
ghost use Rattle.gl_text.specs.Forms.{is_number};
ghost use Rattle.gl_day.specs.Expected.{Proves};

use crate::search::Search;
use gl_box::Boxes;
use gl_desk::Name;
use gl_goal::{AnyGoal, Best, Goal, fix_numbers};
use gl_plain::Found;
use gl_proof::{Claim, ClaimKind};
use std::alloc::{AllocError, Global};

/// The total that was found, if any.
fn total_of(best: &Option<Best>) -> Option<u64>
    ensures { result ≡ total_of best.now }
{
    match best {
        Some(best) => Some(best.total),
        None => None,
    }
}

/// The numbers of the fixes that were found, none where nothing was. The only error is want of
/// memory.
fn fixes_of<G: Goal>(alloc: Global, goal: &G, best: &Option<Best>) -> Result<Vec<u32>, AllocError>
    requires { IsSound (G.rule goal.now) best.now }
    ensures { IfOk result (λ fixes. fixes.items ≡ fixes_of (G.rule goal.now) best.now) }
{
    match best {
        Some(best) => fix_numbers(alloc, goal, &best.tuple),
        None => Ok(Vec::new(alloc)),
    }
}

/// The claim of what was found; its boxes are moved. The only error is want of memory.
pub fn claim_of_found<G: Goal>(
    alloc: Global,
    number: &Name,
    kind: ClaimKind,
    goal: &G,
    found: Found,
) -> Result<Claim, AllocError>
    requires number { IsTrue (is_number number.now) }
    requires certified { IsCertified (G.rule goal.now) found }
    requires sound { IsSound (G.rule goal.now) found.best }
    requires optimum { IsOptimum (G.rule goal.now) (total_of found.best) }
    ensures proves { IfOk result (λ claim.
        Proves (record { number = number.now; kind = kind; rule = G.rule goal.now })
        (statement_of claim)) }
    ensures writable { IfOk result IsWritable }
    ensures total { IfOk result (λ claim. (tuple : List ℕ)
        → IsLegal (G.rule goal.now) tuple → IsSome claim.total) }
{
    let fixes = fixes_of(alloc, goal, &found.best)?;
    Ok(Claim {
        number: Name::from_text(alloc, number.as_str())?,
        kind,
        total: total_of(&found.best),
        fixes,
        cells: Boxes::Walked(found.closed),
    })
}

/// The claim of an entrant for a goal: the greatest total in centimetres, the fixes that reach it
/// and the boxes that show that no choice is longer. The total is `None` exactly where no choice is
/// legal. A claim can have 50 million boxes, so one at a time is to be in memory. The only error is
/// want of memory.
pub fn claim_of<S: Search>(
    alloc: Global,
    search: &S,
    number: &Name,
    kind: ClaimKind,
    goal: &AnyGoal,
) -> Result<Claim, AllocError>
    requires search { S.ready search.now }
    requires number { IsTrue (is_number number.now) }
    ensures proves { IfOk result (λ claim.
        Proves (record { number = number.now; kind = kind; rule = any_rule goal.now })
        (statement_of claim)) }
    ensures writable { IfOk result IsWritable }
    ensures total { IfOk result (λ claim. (tuple : List ℕ)
        → IsLegal (any_rule goal.now) tuple → IsSome claim.total) }
{
    let found = search.search(alloc, goal)?;
    claim_of_found(alloc, number, kind, goal, found)
}
