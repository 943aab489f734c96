ghost use Rattle.std.specs.Prelude.{◌≡◌, ◌-◌, ◌≤◌, ◌<◌, [], ◌∷◌, ◌++◌, length, IfOk, MatchOption, OnOk};
ghost use Rattle.gl_judge.specs.Claimed.{FlightClaim, rules_of_claims};
ghost use Rattle.gl_judge.specs.Code.Claims.{AreAppended, AreClaims};
ghost use Rattle.gl_judge.specs.Claims.{AreChoices, AreExpected, HaveLegal, claim_if, free_claims, triangle_claims};
ghost use Rattle.gl_judge.specs.Outcome.{IsJudged, IsOutcome, OnFinished};

use crate::choices::{area_choice, out_choice};
use crate::judged_fixes::judged_range;
use crate::judging::outcome_of;
use crate::outcome::Judged;
use crate::stretch::Stretch;
use gl_airspace::Airspace;
use gl_goal::{AnyGoal, FreeGoal, TriangleGoal};
use gl_igc::Recording;
use gl_proof::ClaimKind;
use gl_task::{Kind, Task};
use std::alloc::{AllocError, Global};

/// How a flight is judged, and the claims that are expected of it, each with its goal.
#[derive(Drop)]
pub struct JudgedFlight {
    pub outcome: Judged,
    pub claims: Vec<(ClaimKind, AnyGoal)>,
}

/// Appends a claim. The only error is want of memory.
fn push_claim(
    claims: &mut Vec<(ClaimKind, AnyGoal)>,
    kind: ClaimKind,
    goal: AnyGoal,
) -> Result<(), AllocError>
    ensures { OnOk result (claims.new.items ≡ claims.old.items ++ (kind, goal) ∷ []) }
{
    Ok(claims.push((kind, goal))?)
}

/// Appends the claim for the distance of a flight, where the rules leave a choice. The only error
/// is want of memory.
fn push_chosen(
    claims: &mut Vec<(ClaimKind, AnyGoal)>,
    alloc: Global,
    task: &Task,
    rec: &Recording,
    judged: Stretch,
    outcome: Judged,
) -> Result<(), AllocError>
    requires to_in_list { judged.to ≤ length rec.now.fixes }
    requires outcome { IsOutcome task.now rec.now judged outcome }
    ensures { OnOk result (AreAppended claims.old.items claims.new.items
        (AreChoices task.now.kind task.now rec.now.fixes judged outcome)) }
{
    match (outcome, task.kind) {
        (Judged::Finished { .. }, Kind::Racing) | (Judged::NoStart, _) => Ok(()),
        (Judged::Finished { window, .. }, Kind::Area { .. }) => {
            let goal = area_choice(alloc, task, rec, window)?;
            push_claim(claims, ClaimKind::Area, AnyGoal::Area(goal))
        }
        (Judged::Outlanded { window, zones }, _) => {
            let goal = out_choice(alloc, task, rec, judged, window, zones as usize)?;
            push_claim(claims, ClaimKind::Out, AnyGoal::Out(goal))
        }
    }
}

/// The numbers of the first and the last judged fix, where a list is asked for and a fix is judged.
fn listed_range(asked: bool, judged: Stretch) -> Option<(u32, u32)>
    requires { judged.to ≤ 90_000 }
    ensures { MatchOption result
        ((claim : FlightClaim) → claim_if asked judged claim ≡ [])
        (λ range. (range.0 ≡ judged.from) × (range.1 ≡ judged.to - 1) × (range.0 ≤ range.1)
        × (range.1 < judged.to)
        × ((claim : FlightClaim)
        → claim_if asked judged claim ≡ claim ∷ [])) }
{
    if !asked || judged.to <= judged.from {
        return None;
    }
    Some((judged.from as u32, judged.to as u32 - 1))
}

/// Appends the claim of the list of free distances, where it is asked for and a fix is judged. The
/// only error is want of memory.
fn push_free(
    claims: &mut Vec<(ClaimKind, AnyGoal)>,
    alloc: Global,
    task: &Task,
    rec: &Recording,
    judged: Stretch,
) -> Result<(), AllocError>
    requires to_in_list { judged.to ≤ length rec.now.fixes }
    ensures { OnOk result (AreAppended claims.old.items claims.new.items
        (λ claims. claims ≡ free_claims task.now rec.now.fixes judged)) }
{
    let Some((first, last)) = listed_range(task.free, judged) else {
        return Ok(());
    };
    let goal = FreeGoal::new(alloc, rec.fixes.as_slice(), first, last, task.rules.loss)?;
    push_claim(claims, ClaimKind::Free, AnyGoal::Free(goal))
}

/// Appends the claim of the list of triangles, where it is asked for and a fix is judged. The only
/// error is want of memory.
fn push_triangle(
    claims: &mut Vec<(ClaimKind, AnyGoal)>,
    alloc: Global,
    task: &Task,
    rec: &Recording,
    judged: Stretch,
) -> Result<(), AllocError>
    requires to_in_list { judged.to ≤ length rec.now.fixes }
    ensures { OnOk result (AreAppended claims.old.items claims.new.items
        (λ claims. claims ≡ triangle_claims task.now rec.now.fixes judged)) }
{
    let Some((first, last)) = listed_range(task.triangle, judged) else {
        return Ok(());
    };
    let goal = TriangleGoal::new(alloc, rec.fixes.as_slice(), first, last, task.rules.closing)?;
    push_claim(claims, ClaimKind::Triangle, AnyGoal::Triangle(goal))
}

/// Appends the claims that are expected of a flight with these judged fixes and this outcome, the
/// one for the distance first. The only error is want of memory.
fn push_claims(
    claims: &mut Vec<(ClaimKind, AnyGoal)>,
    alloc: Global,
    task: &Task,
    rec: &Recording,
    judged: Stretch,
    outcome: Judged,
) -> Result<(), AllocError>
    requires to_in_list { judged.to ≤ length rec.now.fixes }
    requires outcome { IsOutcome task.now rec.now judged outcome }
    ensures { OnOk result (AreAppended claims.old.items claims.new.items
        (AreClaims task.now rec.now.fixes judged outcome)) }
{
    push_chosen(claims, alloc, task, rec, judged, outcome)?;
    push_free(claims, alloc, task, rec, judged)?;
    push_triangle(claims, alloc, task, rec, judged)
}

/// The claims that are expected of a flight with these judged fixes and this outcome, the one for
/// the distance first. The only error is want of memory.
fn claims_of(
    alloc: Global,
    task: &Task,
    rec: &Recording,
    judged: Stretch,
    outcome: Judged,
) -> Result<Vec<(ClaimKind, AnyGoal)>, AllocError>
    requires to_in_list { judged.to ≤ length rec.now.fixes }
    requires outcome { IsOutcome task.now rec.now judged outcome }
    ensures expected { IfOk result (λ claims.
        AreClaims task.now rec.now.fixes judged outcome (rules_of_claims claims.items)) }
    ensures legal { IfOk result (λ claims. HaveLegal (rules_of_claims claims.items)) }
{
    let mut claims = Vec::new(alloc);
    push_claims(&mut claims, alloc, task, rec, judged, outcome)?;
    Ok(claims)
}

/// How a flight is judged, as [`judge`](crate::judge) has it, and the claims that are expected of
/// it, as [`claims`] has them. The only error is want of memory.
pub fn judge_flight(
    alloc: Global,
    task: &Task,
    air: &Airspace,
    rec: &Recording,
) -> Result<JudgedFlight, AllocError>
    ensures judged { IfOk result (λ flight.
        IsJudged task.now air.now rec.now flight.outcome) }
    ensures seconds { IfOk result (λ flight.
        OnFinished flight.outcome (λ window seconds. seconds ≤ 100_000)) }
    ensures expected { IfOk result (λ flight.
        AreExpected task.now air.now rec.now (rules_of_claims flight.claims.items)) }
    ensures legal { IfOk result (λ flight. HaveLegal (rules_of_claims flight.claims.items)) }
{
    let judged = judged_range(task, air, rec);
    let outcome = outcome_of(task, rec, judged);
    let claims = claims_of(alloc, task, rec, judged, outcome)?;
    Ok(JudgedFlight { outcome, claims })
}

/// The claims that are expected of a flight, each with its goal, in this order: the distance, of
/// one who finished a task of areas or landed out; the free distance and the triangle, each where
/// the task asks for its list and a fix is judged. The only error is want of memory.
pub fn claims(
    alloc: Global,
    task: &Task,
    air: &Airspace,
    rec: &Recording,
) -> Result<Vec<(ClaimKind, AnyGoal)>, AllocError>
    ensures expected { IfOk result (λ claims.
        AreExpected task.now air.now rec.now (rules_of_claims claims.items)) }
    ensures legal { IfOk result (λ claims. HaveLegal (rules_of_claims claims.items)) }
{
    let JudgedFlight { claims, .. } = judge_flight(alloc, task, air, rec)?;
    Ok(claims)
}
