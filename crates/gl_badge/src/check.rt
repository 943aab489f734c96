ghost use Rattle.std.specs.Prelude.{◌≡◌, ℕ, List, [], ◌∷◌, Err, IfErr, IfOk};
ghost use Rattle.gl_answer.specs.Halts.{AreBytes, halt_stop};
ghost use Rattle.gl_check.specs.File.{HasSaid};
ghost use Rattle.gl_desk.specs.Answers.{OnlyReads};
ghost use Rattle.gl_desk.specs.Desk.{HasFile};
ghost use Rattle.gl_day.specs.FileChecked.{GoesOnAhead, HaltsAhead, HasFound, HasProved};
ghost use Rattle.gl_badge.specs.Claims.{rule_of_claim, rules_of_claims};
ghost use Rattle.gl_badge.specs.Named.{expected_claim, expected_of};
ghost use Rattle.gl_badge.specs.Proved.{IsBadgeChecked};

use crate::badge::Badge;
use crate::claim::BadgeClaim;
use crate::claims::badge_claims;
use gl_answer::Halt;
use gl_check::ClaimsFile;
use gl_day::{Checked, NotProved, check_ahead, check_left};
use gl_desk::{Desk, Name};
use gl_goal::Goal;
use gl_igc::Recording;
use std::alloc::Global;

/// What is wrong with the next claim of a file, where that of a badge with this goal is expected
/// and `count` claims were found right before.
fn check_goal<D: Desk, G: Goal>(
    alloc: Global,
    desk: &mut D,
    badge: Badge,
    goal: &G,
    file: &mut ClaimsFile<'_>,
    count: usize,
) -> Result<Option<NotProved>, Halt>
    requires { HasFile (D.told desk.old).folder file.old.file.now }
    ensures goes_on { IfOk result (GoesOnAhead (D.told desk.old).folder count
        (expected_claim badge (G.rule goal.now) ∷ []) file.old file.new) }
    ensures same { file.new.file.now ≡ file.old.file.now }
    ensures halted { IfErr result (HaltsAhead (D.told desk.old).folder file.old) }
    ensures reads { OnlyReads (halt_stop result) (D.told desk.old) (D.told desk.new) }
{
    let number = Name::from_text(alloc, badge.number())?;
    check_ahead(alloc, desk, &number, badge.kind(), goal, file, count)
}

/// What is wrong with the next claim of a file, where a badge claim is expected and `count` claims
/// were found right before.
fn check_claim<D: Desk>(
    alloc: Global,
    desk: &mut D,
    claim: &BadgeClaim,
    file: &mut ClaimsFile<'_>,
    count: usize,
) -> Result<Option<NotProved>, Halt>
    requires { HasFile (D.told desk.old).folder file.old.file.now }
    ensures goes_on { IfOk result (GoesOnAhead (D.told desk.old).folder count
        (expected_of (rule_of_claim claim.now ∷ [])) file.old file.new) }
    ensures same { file.new.file.now ≡ file.old.file.now }
    ensures halted { IfErr result (HaltsAhead (D.told desk.old).folder file.old) }
    ensures reads { OnlyReads (halt_stop result) (D.told desk.old) (D.told desk.new) }
{
    match claim {
        BadgeClaim::Distance(goal) => {
            check_goal(alloc, desk, Badge::Distance, goal, file, count)
        }
        BadgeClaim::Gain(goal) => check_goal(alloc, desk, Badge::Gain, goal, file, count),
        BadgeClaim::DeclaredGoal(goal) => {
            check_goal(alloc, desk, Badge::DeclaredGoal, goal, file, count)
        }
    }
}

/// What is wrong with the first claim of a file that is, where these badge claims are expected;
/// none where all of them are right.
fn check_claims<D: Desk>(
    alloc: Global,
    desk: &mut D,
    claims: &[BadgeClaim],
    file: &mut ClaimsFile<'_>,
) -> Result<Option<NotProved>, Halt>
    requires { HasFile (D.told desk.old).folder file.old.file.now }
    ensures goes_on { IfOk result (GoesOnAhead (D.told desk.old).folder 0
        (expected_of (rules_of_claims claims.now)) file.old file.new) }
    ensures same { file.new.file.now ≡ file.old.file.now }
    ensures halted { IfErr result (λ halt. (name : List ℕ) (most : ℕ)
        → HasProved (D.told desk.old).folder name most [] file.old
        → AreBytes (D.told desk.old).folder name most (Err halt)) }
    ensures reads { OnlyReads (halt_stop result) (D.told desk.old) (D.told desk.new) }
{
    let mut count: usize = 0;
    for claim in claims {
        if let Some(wrong) = check_claim(alloc, desk, claim, file, count)? {
            return Ok(Some(wrong));
        }
        count += 1;
    }
    Ok(None)
}

/// What is said of the claims of a proof's file by a recording: they are exactly its badge claims,
/// in their order, each a certificate, or the first that is wrong is named.
pub fn check_badges<D: Desk>(
    alloc: Global,
    desk: &mut D,
    rec: &Recording,
    file: &mut ClaimsFile<'_>,
) -> Result<Checked, Halt>
    requires { HasFile (D.told desk.old).folder file.old.file.now }
    ensures checked { IfOk result (λ said. (name : List ℕ) (most : ℕ)
        → HasSaid (D.told desk.old).folder name most [] file.old
        → HasFound (D.told desk.old).folder name most (λ statements.
        IsBadgeChecked rec.now statements said) file.new) }
    ensures same { file.new.file.now ≡ file.old.file.now }
    ensures halted { IfErr result (λ halt. (name : List ℕ) (most : ℕ)
        → HasSaid (D.told desk.old).folder name most [] file.old
        → AreBytes (D.told desk.old).folder name most (Err halt)) }
    ensures reads { OnlyReads (halt_stop result) (D.told desk.old) (D.told desk.new) }
{
    let claims = badge_claims(alloc, rec)?;
    match check_claims(alloc, desk, claims.as_slice(), file)? {
        Some(wrong) => Ok(Checked::Refused(wrong)),
        None => Ok(check_left(file, claims.len())),
    }
}
