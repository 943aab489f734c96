ghost use Rattle.std.specs.Prelude.{◌≡◌, IfOk};
ghost use Rattle.gl_badge.specs.Proved.{IsBadgeChecked};
ghost use Rattle.gl_day.specs.FileChecked.{SaysOfText};
ghost use Rattle.gl_desk.specs.Answers.{OnlyReads, stop_of};
ghost use Rattle.gl_desk.specs.Desk.{HasFile};
ghost use Rattle.gl_words.specs.BadgeWords.{badge_seen};
ghost use Rattle.gl_flights.specs.BadgeFiles.{IsBadgeSeen, badge_check_tests};
ghost use Rattle.gl_answer.specs.Answer.{answer_of};
ghost use Rattle.gl_answer.specs.FileTests.{HasTested, ProofText, most_proof_bytes};
ghost use Rattle.gl_answer.specs.Halts.{halt_stop};
ghost use Rattle.gl_answer.specs.ReadFiles.{HasReadFile};
ghost use Rattle.gl_app.specs.Badge.{IsBadgeCheck, IsBadgeProofChecked};

use gl_answer::{Answer, Halt, MOST_PROOF_BYTES, answer_halt};
use gl_badge::check_badges;
use gl_check::ClaimsFile;
use gl_day::Checked;
use gl_day_claims::check::checked_answer;
use gl_desk::{Desk, DeskError, Name};
use gl_flights::test_badge_check_files;
use gl_igc::Recording;
use gl_words::BadgeWords;
use std::alloc::Global;

/// What is said of a listed file by a recording. It is refused where it has more than 1,073,741,824
/// bytes, or isn't a proof, whatever is wrong with its claims.
fn check_badge_file<D: Desk>(
    alloc: Global,
    desk: &mut D,
    recording: &Recording,
    proof: &Name,
) -> Result<Checked, Halt>
    requires { HasFile (D.told desk.old).folder proof.now }
    ensures checked { HasReadFile ProofText most_proof_bytes (D.told desk.old).folder proof.now
        (SaysOfText (IsBadgeChecked recording.now)) result }
    ensures reads { OnlyReads (halt_stop result) (D.told desk.old) (D.told desk.new) }
{
    let mut claims = ClaimsFile::open(alloc, desk, proof, MOST_PROOF_BYTES)?;
    let said = check_badges(alloc, desk, recording, &mut claims)?;
    claims.end(alloc, desk)?;
    Ok(said)
}

/// What is said of a proof by the recording: that its claims are accepted, or the first that is
/// wrong.
fn check_badge_proof<D: Desk>(
    alloc: Global,
    desk: &mut D,
    words: BadgeWords<'_>,
) -> Result<Checked, Halt>
    ensures checked { HasTested (IsBadgeSeen (badge_seen words.entry) (D.told desk.old).folder)
        (badge_check_tests (badge_seen words.entry)) IsBadgeProofChecked result }
    ensures reads { OnlyReads (halt_stop result) (D.told desk.old) (D.told desk.new) }
{
    let names = desk.names(alloc)?;
    let recording = test_badge_check_files(alloc, desk, &names, words)?;
    check_badge_file(alloc, desk, &recording, words.proof)
}

/// The answer of `badgecheck FILE PROOF`: whether the proof is that of the flight's badge claims.
pub fn badge_check<D: Desk>(
    alloc: Global,
    desk: &mut D,
    words: BadgeWords<'_>,
) -> Result<Answer, DeskError>
    ensures right { IfOk result (λ answer.
        IsBadgeCheck (D.told desk.old).folder (badge_seen words.entry) (answer_of answer)) }
    ensures reads { OnlyReads (stop_of result) (D.told desk.old) (D.told desk.new) }
{
    match check_badge_proof(alloc, desk, words) {
        Ok(said) => Ok(checked_answer(alloc, said)?),
        Err(halt) => answer_halt(alloc, halt),
    }
}
