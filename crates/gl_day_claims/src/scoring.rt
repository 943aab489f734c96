ghost use Rattle.std.specs.Prelude.{◌≡◌, ◌⊎◌, ℕ, List, [], Option, Some, Contains, IfErr, IfOk, IsTrue, OnOk, map};
ghost use Rattle.gl_desk.specs.Desk.{ListsNames, HaveFiles};
ghost use Rattle.gl_proof.specs.Claim.{claim_text, statement_of};
ghost use Rattle.gl_text.specs.Forms.{is_number};
ghost use Rattle.gl_day.specs.declared.flight.Seen.TheVariants.{Recorded};
ghost use Rattle.gl_day.specs.Expected.{expected_of};
ghost use Rattle.gl_judge.specs.Claimed.{rules_of_claims};
ghost use Rattle.gl_judge.specs.Claims.{AreExpected, HaveLegal};
ghost use Rattle.gl_judge.specs.Outcome.{IsJudged};
ghost use Rattle.gl_day.specs.Flight.{IsSeen, steward_rules};
ghost use Rattle.gl_answer.specs.Appending.{HasAppended, HasAppendedPart};
ghost use Rattle.gl_day_claims.specs.Code.Asked.{IsSeenAmong};
ghost use Rattle.gl_day_claims.specs.Code.Scoring.{AreClaimed, AreClaimedPartly, AreEntrantsScored, IsEntrantBegun, IsEntrantScored};
ghost use Rattle.gl_day_claims.specs.Scoring.{IsDayDone, IsDayStopped};

use crate::seeing::see_entrant;
use gl_answer::{append_lines, append_piece};
use gl_day::{
    Flight, Search, Seen, Totals, claim_of, end_line, finish_flight, heading_line, sheet_of,
};
use gl_day_files::DayFiles;
use gl_desk::{Desk, DeskError, Name};
use gl_goal::AnyGoal;
use gl_igc::Recording;
use gl_judge::{JudgedFlight, judge_flight};
use gl_proof::{Claim, ClaimKind};
use gl_task::{Entrant, Steward};
use std::alloc::Global;

/// Appends the lines of a claim to the proof. After an error a first part of them was appended.
pub fn append_claim<D: Desk>(
    alloc: Global,
    desk: &mut D,
    proof: &Name,
    claim: &Claim,
) -> Result<(), DeskError>
    ensures appended { OnOk result (HasAppended proof.now (claim_text (statement_of claim.now))
        (D.told desk.old) (D.told desk.new)) }
    ensures stopped { IfErr result (HasAppendedPart proof.now (claim_text (statement_of claim.now))
        (D.told desk.old) (D.told desk.new)) }
{
    let lines = claim.lines(alloc)?;
    append_lines(alloc, desk, proof, lines)
}

/// Proves the claims of a flight, one after the other, and appends the lines of each to the proof.
/// One claim at a time is in memory. The answer has their totals.
fn prove_claims<D: Desk, S: Search>(
    alloc: Global,
    desk: &mut D,
    search: &S,
    proof: &Name,
    number: &Name,
    goals: &[(ClaimKind, AnyGoal)],
) -> Result<Totals, DeskError>
    requires search { S.ready search.now }
    requires number { IsTrue (is_number number.now) }
    ensures claimed { IfOk result (λ totals.
        AreClaimed (expected_of number.now (rules_of_claims goals.now)) totals proof.now
        (D.told desk.old) (D.told desk.new)) }
    ensures stopped { IfErr result
        (AreClaimedPartly (expected_of number.now (rules_of_claims goals.now)) proof.now
        (D.told desk.old) (D.told desk.new)) }
{
    let mut totals = Totals::NONE;
    for goal in goals {
        let claim = claim_of(alloc, search, number, goal.0, &goal.1)?;
        append_claim(alloc, desk, proof, &claim)?;
        totals.note(&claim);
    }
    Ok(totals)
}

/// The flight of an entrant that was judged; the lines of its claims are appended to the proof.
fn score_judged<D: Desk, S: Search>(
    alloc: Global,
    desk: &mut D,
    search: &S,
    files: &DayFiles,
    proof: &Name,
    entrant: &Entrant,
    rec: &Recording,
    judged: &JudgedFlight,
    stewards: &mut Vec<Box<dyn Steward>>,
) -> Result<Flight, DeskError>
    requires search { S.ready search.now }
    requires judged { IsJudged files.now.task files.now.airspace rec.now judged.now.outcome }
    requires expected { AreExpected files.now.task files.now.airspace rec.now
        (rules_of_claims judged.now.claims.items) }
    requires legal { HaveLegal (rules_of_claims judged.now.claims.items) }
    ensures scored { IfOk result (λ flight. (bytes : List ℕ)
        → IsSeen files.now.task entrant.now bytes (Recorded rec.now)
        → IsEntrantScored files.now
        (map (λ s. steward_rules (opening s) (fed s) (owed s)) stewards.old.items)
        entrant.now (Some bytes) proof.now (D.told desk.old) (D.told desk.new) flight) }
    ensures stopped { IfErr result (λ stop.
        HasAppendedPart proof.now [] (D.told desk.old) (D.told desk.new) stop
        ⊎ ((bytes : List ℕ) → IsSeen files.now.task entrant.now bytes (Recorded rec.now)
        → IsEntrantBegun files.now entrant.now (Some bytes) proof.now
        (D.told desk.old) (D.told desk.new) stop)) }
    ensures kept { map (λ s. steward_rules (opening s) (fed s) (owed s)) stewards.new.items
        ≡ map (λ s. steward_rules (opening s) (fed s) (owed s)) stewards.old.items }
{
    let totals = prove_claims(
        alloc,
        desk,
        search,
        proof,
        &entrant.number,
        judged.claims.as_slice(),
    )?;
    Ok(finish_flight(
        &files.task,
        entrant,
        rec,
        &judged.outcome,
        &totals,
        stewards,
    ))
}

/// The flight of an entrant with a recording; the lines of its claims are appended to the proof.
fn score_recorded<D: Desk, S: Search>(
    alloc: Global,
    desk: &mut D,
    search: &S,
    files: &DayFiles,
    proof: &Name,
    entrant: &Entrant,
    rec: &Recording,
    stewards: &mut Vec<Box<dyn Steward>>,
) -> Result<Flight, DeskError>
    requires { S.ready search.now }
    ensures scored { IfOk result (λ flight. (bytes : List ℕ)
        → IsSeen files.now.task entrant.now bytes (Recorded rec.now)
        → IsEntrantScored files.now
        (map (λ s. steward_rules (opening s) (fed s) (owed s)) stewards.old.items)
        entrant.now (Some bytes) proof.now (D.told desk.old) (D.told desk.new) flight) }
    ensures stopped { IfErr result (λ stop.
        HasAppendedPart proof.now [] (D.told desk.old) (D.told desk.new) stop
        ⊎ ((bytes : List ℕ) → IsSeen files.now.task entrant.now bytes (Recorded rec.now)
        → IsEntrantBegun files.now entrant.now (Some bytes) proof.now
        (D.told desk.old) (D.told desk.new) stop)) }
    ensures kept { map (λ s. steward_rules (opening s) (fed s) (owed s)) stewards.new.items
        ≡ map (λ s. steward_rules (opening s) (fed s) (owed s)) stewards.old.items }
{
    let judged = judge_flight(alloc, &files.task, &files.airspace, rec)?;
    score_judged(
        alloc, desk, search, files, proof, entrant, rec, &judged, stewards,
    )
}

/// The flight of an entrant; the lines of its claims are appended to the proof.
fn score_entrant<D: Desk, S: Search>(
    alloc: Global,
    desk: &mut D,
    search: &S,
    names: &[Name],
    files: &DayFiles,
    proof: &Name,
    entrant: &Entrant,
    stewards: &mut Vec<Box<dyn Steward>>,
) -> Result<Flight, DeskError>
    requires search { S.ready search.now }
    requires names { HaveFiles (D.told desk.old).folder names.now }
    ensures scored { IfOk result (λ flight. (seen : Option (List ℕ))
        × IsSeenAmong names.now (D.told desk.old).folder entrant.now.file seen
        × IsEntrantScored files.now
        (map (λ s. steward_rules (opening s) (fed s) (owed s)) stewards.old.items)
        entrant.now seen proof.now (D.told desk.old) (D.told desk.new) flight) }
    ensures stopped { IfErr result (λ stop.
        HasAppendedPart proof.now [] (D.told desk.old) (D.told desk.new) stop
        ⊎ ((seen : Option (List ℕ))
        × IsSeenAmong names.now (D.told desk.old).folder entrant.now.file seen
        × IsEntrantBegun files.now entrant.now seen proof.now
        (D.told desk.old) (D.told desk.new) stop)) }
    ensures kept { map (λ s. steward_rules (opening s) (fed s) (owed s)) stewards.new.items
        ≡ map (λ s. steward_rules (opening s) (fed s) (owed s)) stewards.old.items }
{
    match see_entrant(alloc, desk, names, &files.task, entrant)? {
        Seen::Recorded(rec) => {
            score_recorded(alloc, desk, search, files, proof, entrant, &rec, stewards)
        }
        Seen::Refused(flight) => Ok(flight),
    }
}

/// The flights of all entrants, in the task's order; the heading and the lines of their claims are
/// appended to the proof.
fn score_entrants<D: Desk, S: Search>(
    alloc: Global,
    desk: &mut D,
    search: &S,
    names: &[Name],
    files: &DayFiles,
    proof: &Name,
    stewards: &mut Vec<Box<dyn Steward>>,
) -> Result<Vec<Flight>, DeskError>
    requires search { S.ready search.now }
    requires names { ListsNames (D.told desk.old).folder names.now }
    requires proof_is_new { Contains names.now proof.now → ⊥ }
    ensures scored { IfOk result (λ flights. AreEntrantsScored files.now
        (map (λ s. steward_rules (opening s) (fed s) (owed s)) stewards.old.items)
        files.now.task.entrants proof.now (D.told desk.old) (D.told desk.new) flights.items) }
    ensures stopped { IfErr result
        (IsDayStopped files.now proof.now (D.told desk.old) (D.told desk.new)) }
    ensures kept { map (λ s. steward_rules (opening s) (fed s) (owed s)) stewards.new.items
        ≡ map (λ s. steward_rules (opening s) (fed s) (owed s)) stewards.old.items }
{
    append_piece(alloc, desk, proof, heading_line())?;
    let mut flights = Vec::new(alloc);
    for entrant in files.task.entrants.as_slice() {
        flights.push(score_entrant(alloc, desk, search, names, files, proof, entrant, stewards)?)?;
    }
    Ok(flights)
}

/// The sheet of a day whose files passed the tests, with the proof appended to its file: the
/// heading, the claims entrant by entrant in the task's order, and the end. After an error a first
/// part of a proof was appended.
pub(crate) fn score_day<D: Desk, S: Search>(
    alloc: Global,
    desk: &mut D,
    search: &S,
    names: &[Name],
    files: &DayFiles,
    proof: &Name,
    stewards: &mut Vec<Box<dyn Steward>>,
) -> Result<Vec<u8>, DeskError>
    requires search { S.ready search.now }
    requires names { ListsNames (D.told desk.old).folder names.now }
    requires proof_is_new { Contains names.now proof.now → ⊥ }
    ensures scored { IfOk result (λ sheet. IsDayDone files.now
        (map (λ s. steward_rules (opening s) (fed s) (owed s)) stewards.old.items)
        proof.now (D.told desk.old) (D.told desk.new) sheet.items) }
    ensures stopped { IfErr result
        (IsDayStopped files.now proof.now (D.told desk.old) (D.told desk.new)) }
    ensures kept { map (λ s. steward_rules (opening s) (fed s) (owed s)) stewards.new.items
        ≡ map (λ s. steward_rules (opening s) (fed s) (owed s)) stewards.old.items }
{
    let flights = score_entrants(alloc, desk, search, names, files, proof, stewards)?;
    let sheet = sheet_of(alloc, &files.task, flights.as_slice())?;
    append_piece(alloc, desk, proof, end_line())?;
    Ok(sheet)
}
