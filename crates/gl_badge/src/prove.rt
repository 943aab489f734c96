ghost use Rattle.std.specs.Prelude.{◌≡◌, map, IfOk};
ghost use Rattle.std.specs.List.{AllZip};
ghost use Rattle.gl_day.specs.Expected.{Proves};
ghost use Rattle.gl_proof.specs.Claim.{statement_of};
ghost use Rattle.gl_badge.specs.Claims.{rule_of_claim, rules_of_claims};
ghost use Rattle.gl_badge.specs.Named.{expected_claim, expected_of};
ghost use Rattle.gl_badge.specs.Proved.{IsBadgeFound};

use crate::badge::Badge;
use crate::claim::BadgeClaim;
use crate::claims::badge_claims;
use crate::text::badge_text;
use gl_day::claim_of_found;
use gl_desk::Name;
use gl_goal::Goal;
use gl_igc::Recording;
use gl_plain::search_one;
use gl_proof::Claim;
use std::alloc::{AllocError, Global};

/// What is found of the badge claims of a flight.
#[derive(Debug, Drop)]
pub struct Badges {
    /// The three lines that tell of them.
    pub lines: Vec<u8>,
    /// The claims, each with its boxes, in their order.
    pub claims: Vec<Claim>,
}

/// The claim of a badge with its goal, proved. The only error is want of memory.
fn prove_goal<G: Goal>(alloc: Global, badge: Badge, goal: &G) -> Result<Claim, AllocError>
    ensures { IfOk result (λ claim.
        Proves (expected_claim badge (G.rule goal.now)) (statement_of claim)) }
{
    let number = Name::from_text(alloc, badge.number())?;
    let found = search_one(alloc, goal)?;
    claim_of_found(alloc, &number, badge.kind(), goal, found)
}

/// A badge claim, proved. The only error is want of memory.
fn prove_claim(alloc: Global, claim: &BadgeClaim) -> Result<Claim, AllocError>
    ensures { IfOk result (λ proved. Proves
        (expected_claim (rule_of_claim claim.now).0 (rule_of_claim claim.now).1)
        (statement_of proved)) }
{
    match claim {
        BadgeClaim::Distance(goal) => prove_goal(alloc, Badge::Distance, goal),
        BadgeClaim::Gain(goal) => prove_goal(alloc, Badge::Gain, goal),
        BadgeClaim::DeclaredGoal(goal) => prove_goal(alloc, Badge::DeclaredGoal, goal),
    }
}

/// Badge claims, each proved. The only error is want of memory.
fn prove_claims(alloc: Global, claims: &[BadgeClaim]) -> Result<Vec<Claim>, AllocError>
    ensures { IfOk result (λ proved. AllZip Proves (expected_of (rules_of_claims claims.now))
        (map statement_of proved.items)) }
{
    let mut proved = Vec::with_capacity(alloc, claims.len())?;
    for claim in claims {
        proved.push(prove_claim(alloc, claim)?)?;
    }
    Ok(proved)
}

/// The totals of some claims. The only error is want of memory.
fn totals_of(alloc: Global, claims: &[Claim]) -> Result<Vec<Option<u64>>, AllocError>
    ensures { IfOk result (λ totals. totals.items ≡ map (λ claim. claim.total) claims.now) }
{
    let mut totals = Vec::with_capacity(alloc, claims.len())?;
    for claim in claims {
        totals.push(claim.total)?;
    }
    Ok(totals)
}

/// The three lines of a flight's badge claims, and the claims themselves, proved: each has the
/// fixes that reach its total and the boxes that show that no others reach more. The only error is
/// want of memory.
pub fn prove_badges(alloc: Global, rec: &Recording) -> Result<Badges, AllocError>
    ensures { IfOk result (λ badges.
        IsBadgeFound rec.now badges.lines.items (map statement_of badges.claims.items)) }
{
    let goals = badge_claims(alloc, rec)?;
    let claims = prove_claims(alloc, goals.as_slice())?;
    let totals = totals_of(alloc, claims.as_slice())?;
    let lines = badge_text(alloc, rec, totals.as_slice())?;
    Ok(Badges { lines, claims })
}
