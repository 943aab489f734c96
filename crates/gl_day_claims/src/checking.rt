ghost use Rattle.std.specs.Prelude.{◌≡◌, ℕ, List, [], ◌++◌, ◌∷◌, Err, IfErr, IfOk, OnOk, map};
ghost use Rattle.gl_answer.specs.FileTests.{ProofText};
ghost use Rattle.gl_answer.specs.Halts.{AreBytes, halt_stop};
ghost use Rattle.gl_answer.specs.ReadFiles.{HasReadFile};
ghost use Rattle.gl_check.specs.File.{HasSaid};
ghost use Rattle.gl_desk.specs.Answers.{OnlyReads, stop_of};
ghost use Rattle.gl_desk.specs.Desk.{HasFile, ListsNames};
ghost use Rattle.gl_day.specs.Expected.{expected_of};
ghost use Rattle.gl_day.specs.FileChecked.{HasFound};
ghost use Rattle.gl_judge.specs.Claimed.{rules_of_claims};
ghost use Rattle.gl_judge.specs.Claims.{AreExpected};
ghost use Rattle.gl_day_claims.specs.Asked.{AreAskedIn};
ghost use Rattle.gl_day_claims.specs.Check.{IsTextChecked};
ghost use Rattle.gl_day_claims.specs.DayChecked.{IsDayChecked};

use crate::seeing::see_entrant;
use gl_answer::Halt;
use gl_check::ClaimsFile;
use gl_day::{Checked, Seen, check_flight_ahead, check_left};
use gl_day_files::DayFiles;
use gl_desk::{Desk, DeskError, Name};
use gl_goal::AnyGoal;
use gl_igc::Recording;
use gl_judge::claims;
use gl_proof::ClaimKind;
use gl_task::Entrant;
use std::alloc::Global;

/// The claims that are expected of a recording, with their goals. The only error is want of memory.
fn claims_of_recording(
    alloc: Global,
    files: &DayFiles,
    rec: &Recording,
) -> Result<Vec<(ClaimKind, AnyGoal)>, DeskError>
    ensures expected { IfOk result (λ goals.
        AreExpected files.now.task files.now.airspace rec.now (rules_of_claims goals.items)) }
    ensures memory { IfErr result (λ error. error ≡ DeskError.Memory) }
{
    Ok(claims(alloc, &files.task, &files.airspace, rec)?)
}

/// The claims that a proof has to have of an entrant, with their goals.
fn asked_of<D: Desk>(
    alloc: Global,
    desk: &mut D,
    names: &[Name],
    files: &DayFiles,
    entrant: &Entrant,
) -> Result<Vec<(ClaimKind, AnyGoal)>, DeskError>
    requires { ListsNames (D.told desk.old).folder names.now }
    ensures asked { IfOk result (λ goals.
        AreAskedIn (D.told desk.old).folder files.now.task files.now.airspace entrant.now
        (expected_of entrant.now.number (rules_of_claims goals.items))) }
    ensures reads { OnlyReads (stop_of result) (D.told desk.old) (D.told desk.new) }
{
    match see_entrant(alloc, desk, names, &files.task, entrant)? {
        Seen::Recorded(rec) => claims_of_recording(alloc, files, &rec),
        Seen::Refused(_) => Ok(Vec::new(alloc)),
    }
}

/// What is said of the claims of a proof's file by the files of a day: they are compared with those
/// that it has to have, entrant by entrant, up to the first that is wrong.
fn check_claims<D: Desk>(
    alloc: Global,
    desk: &mut D,
    names: &[Name],
    files: &DayFiles,
    claims: &mut ClaimsFile<'_>,
) -> Result<Checked, Halt>
    requires names { ListsNames (D.told desk.old).folder names.now }
    requires listed { HasFile (D.told desk.old).folder claims.old.file.now }
    ensures checked { IfOk result (λ said. (file : List ℕ) (most : ℕ)
        → HasSaid (D.told desk.old).folder file most [] claims.old
        → HasFound (D.told desk.old).folder file most (λ statements.
        IsDayChecked (D.told desk.old).folder files.now statements said) claims.new) }
    ensures same { claims.new.file.now ≡ claims.old.file.now }
    ensures halted { IfErr result (λ halt. (file : List ℕ) (most : ℕ)
        → HasSaid (D.told desk.old).folder file most [] claims.old
        → AreBytes (D.told desk.old).folder file most (Err halt)) }
    ensures reads { OnlyReads (halt_stop result) (D.told desk.old) (D.told desk.new) }
{
    let mut count: usize = 0;
    for entrant in files.task.entrants.as_slice() {
        let goals = asked_of(alloc, desk, names, files, entrant)?;
        let wrong = check_flight_ahead(alloc, desk, &entrant.number, &goals, claims, count)?;
        if let Some(wrong) = wrong {
            return Ok(Checked::Refused(wrong));
        }
        count = count.saturating_add(goals.len());
    }
    Ok(check_left(claims, count))
}

/// What is said of a listed file by the files of a day. It is refused where it has more than `most`
/// bytes, or isn't a proof, whatever is wrong with its claims.
pub(crate) fn check_file<D: Desk>(
    alloc: Global,
    desk: &mut D,
    names: &[Name],
    files: &DayFiles,
    proof: &Name,
    most: u64,
) -> Result<Checked, Halt>
    requires names { ListsNames (D.told desk.old).folder names.now }
    requires listed { HasFile (D.told desk.old).folder proof.now }
    ensures checked { HasReadFile ProofText most (D.told desk.old).folder proof.now
        (IsTextChecked (D.told desk.old).folder files.now) result }
    ensures reads { OnlyReads (halt_stop result) (D.told desk.old) (D.told desk.new) }
{
    let mut claims = ClaimsFile::open(alloc, desk, proof, most)?;
    let said = check_claims(alloc, desk, names, files, &mut claims)?;
    claims.end(alloc, desk)?;
    Ok(said)
}
