ghost use Rattle.std.specs.Prelude.{◌≡◌, ◌++◌, ℕ, List, Some, IfOk, IsSome, IsTrue, OnOk, map};
ghost use Rattle.gl_airspace.specs.declared.volume.Airspace.{Airspace};
ghost use Rattle.gl_day.specs.Expected.{expected_of};
ghost use Rattle.gl_day.specs.Flight.{AreClaims, IsFlight, IsSeen, steward_rules};
ghost use Rattle.gl_day.specs.declared.flight.Seen.TheVariants.{Recorded};
ghost use Rattle.gl_judge.specs.Claimed.{rules_of_claims};
ghost use Rattle.gl_judge.specs.Claims.{AreExpected, HaveLegal};
ghost use Rattle.gl_judge.specs.Marking.{is_chosen};
ghost use Rattle.gl_judge.specs.Outcome.{IsJudged};
ghost use Rattle.gl_proof.specs.Claim.{Statement, statement_of};
ghost use Rattle.gl_text.specs.Forms.{is_number};
ghost use Rattle.gl_why.specs.Code.Scoring.{AreProven, IsScored};
ghost use Rattle.gl_why.specs.Credits.{credited_in};
ghost use Rattle.gl_why.specs.Stewards.{the_stewards};

use gl_airspace::Airspace;
use gl_day::{Alone, Flight, Totals, claim_of, finish_flight};
use gl_desk::Name;
use gl_goal::AnyGoal;
use gl_igc::Recording;
use gl_judge::{Judged, JudgedFlight, judge_flight};
use gl_proof::{Claim, ClaimKind};
use gl_task::{Ceiling, EngineNoise, Entrant, Steward, Task};
use std::alloc::{AllocError, Global};

/// What the claims of a flight give: their totals, and the fixes of the choice that the distance
/// goes by.
#[derive(Debug, Drop)]
pub struct Proven {
    pub totals: Totals,
    pub credited: Vec<u32>,
}

/// The flight of a recording as the sheet has it, how it was judged, and the fixes that its
/// distance goes by.
#[derive(Debug, Drop)]
pub struct Scored {
    pub judged: Judged,
    pub flight: Flight,
    pub credited: Vec<u32>,
}

/// Appends the fixes of a claim that is for the distance of the task.
fn push_credited(credited: &mut Vec<u32>, claim: &Claim) -> Result<(), AllocError>
    ensures { OnOk result (credited.new.items
        ≡ credited.old.items ++ credited_in (statement_of claim.now)) }
{
    match claim.kind {
        ClaimKind::Area | ClaimKind::Out => Ok(credited.extend_from_slice(&claim.fixes)?),
        ClaimKind::Free | ClaimKind::Triangle => Ok(()),
    }
}

/// Proves the claims of a flight, one after the other, as one worker does. One claim at a time is
/// in memory.
fn prove_claims(
    alloc: Global,
    number: &Name,
    goals: &[(ClaimKind, AnyGoal)],
) -> Result<Proven, AllocError>
    requires { IsTrue (is_number number.now) }
    ensures { IfOk result (λ proven. AreProven
        (expected_of number.now (rules_of_claims goals.now))
        proven.totals proven.credited.items) }
{
    let mut totals = Totals::NONE;
    let mut credited = Vec::new(alloc);
    for goal in goals {
        let claim = claim_of(alloc, &Alone, number, goal.0, &goal.1)?;
        push_credited(&mut credited, &claim)?;
        totals.note(&claim);
    }
    Ok(Proven { totals, credited })
}

/// The flight of a recording that was judged, once its claims are proved, by the two stewards of
/// the program.
fn finish(
    alloc: Global,
    task: &Task,
    entrant: &Entrant,
    rec: &Recording,
    judged: &Judged,
    totals: &Totals,
) -> Result<Flight, AllocError>
    requires judged { (air : Airspace) × IsJudged task.now air rec.now judged.now }
    requires distance { IsTrue (is_chosen task.now.kind judged.now) → IsSome totals.now.distance }
    ensures { IfOk result (λ flight. (air : Airspace) (bytes : List ℕ)
        (statements : List Statement)
        → IsSeen task.now entrant.now bytes (Recorded rec.now)
        → IsJudged task.now air rec.now judged.now
        → AreClaims task.now air entrant.now rec.now statements totals.now
        → IsFlight task.now air the_stewards entrant.now (Some bytes) statements flight) }
{
    let mut stewards: Vec<Box<dyn Steward>> = Vec::new(alloc);
    stewards.push(Box::new(alloc, Ceiling::new())?)?;
    stewards.push(Box::new(alloc, EngineNoise::new())?)?;
    Ok(finish_flight(task, entrant, rec, judged, totals, &mut stewards))
}

/// The flight of a recording that was judged so.
fn score_judged(
    alloc: Global,
    task: &Task,
    air: &Airspace,
    entrant: &Entrant,
    rec: &Recording,
    judged: JudgedFlight,
) -> Result<Scored, AllocError>
    requires judged { IsJudged task.now air.now rec.now judged.outcome }
    requires expected { AreExpected task.now air.now rec.now
        (rules_of_claims judged.claims.items) }
    requires legal { HaveLegal (rules_of_claims judged.claims.items) }
    ensures { IfOk result (IsScored task.now air.now entrant.now rec.now) }
{
    let proven = prove_claims(alloc, &entrant.number, judged.claims.as_slice())?;
    let flight = finish(alloc, task, entrant, rec, &judged.outcome, &proven.totals)?;
    Ok(Scored {
        judged: judged.outcome,
        flight,
        credited: proven.credited,
    })
}

/// The flight of a recording, as `score` by one worker has it.
pub fn score_recorded(
    alloc: Global,
    task: &Task,
    air: &Airspace,
    entrant: &Entrant,
    rec: &Recording,
) -> Result<Scored, AllocError>
    ensures { IfOk result (IsScored task.now air.now entrant.now rec.now) }
{
    let judged = judge_flight(alloc, task, air, rec)?;
    score_judged(alloc, task, air, entrant, rec, judged)
}
