ghost use Rattle.std.specs.Prelude.{◌≡◌, ℕ, List, [], ◌∷◌, Err, IfErr, IfOk, Some};
ghost use Rattle.gl_answer.specs.Halts.{AreBytes, halt_stop};
ghost use Rattle.gl_check.specs.File.{HasSaid, IsClaimSaid};
ghost use Rattle.gl_desk.specs.Answers.{OnlyReads};
ghost use Rattle.gl_desk.specs.Desk.{HasFile};
ghost use Rattle.gl_proof.specs.Claim.{Statement};
ghost use Rattle.gl_goal.specs.Goal.{IsOptimum};
ghost use Rattle.gl_day.specs.Checked.{IsSaid};
ghost use Rattle.gl_day.specs.Code.Found.{IsFoundAt};
ghost use Rattle.gl_day.specs.Expected.{Expected, expected_of};
ghost use Rattle.gl_day.specs.FileChecked.{EndsAhead, GoesOnAhead, HaltsAhead, IsFoundAhead};
ghost use Rattle.gl_judge.specs.Claimed.{rules_of_claims};

use crate::fault::{Checked, Fault, NotProved};
use gl_answer::Halt;
use gl_check::{ClaimSaid, ClaimsFile, Verdict};
use gl_desk::{Desk, Name};
use gl_goal::{AnyGoal, Goal};
use gl_proof::ClaimKind;
use std::alloc::Global;

/// The fault that a verdict tells, if it tells one.
fn fault_of_verdict(verdict: Verdict) -> Option<Fault>
    ensures { (expected : Expected) (statement : Statement)
        → IsSaid expected statement verdict
        → (verdict ≡ Verdict.Yes → IsOptimum expected.rule statement.total)
        → IsFoundAt expected (Some statement) result }
{
    match verdict {
        Verdict::Yes => None,
        Verdict::Fixes => Some(Fault::Fixes),
        Verdict::Total => Some(Fault::Total),
        Verdict::Extra(number) => Some(Fault::Extra(number)),
        Verdict::Place(number) => Some(Fault::Place(number)),
        Verdict::Cell(number) => Some(Fault::Cell(number)),
        Verdict::Open => Some(Fault::Open),
    }
}

/// What is wrong with a claim of which this is said, where one of a number and a kind is expected.
fn fault_of_said<G: Goal>(
    number: &Name,
    kind: ClaimKind,
    goal: &G,
    said: &ClaimSaid,
) -> Option<Fault>
    ensures { (statement : Statement) → IsClaimSaid (G.rule goal.now) statement said.now
        → IsFoundAt (record { number = number.now; kind = kind; rule = G.rule goal.now })
        (Some statement) result }
{
    if said.number != *number {
        return Some(Fault::Name);
    }
    if said.kind != kind {
        return Some(Fault::Name);
    }
    fault_of_verdict(said.verdict)
}

/// What is wrong with the next claim of a file, where one for a goal is expected.
fn fault_ahead<D: Desk, G: Goal>(
    alloc: Global,
    desk: &mut D,
    number: &Name,
    kind: ClaimKind,
    goal: &G,
    claims: &mut ClaimsFile<'_>,
) -> Result<Option<Fault>, Halt>
    requires { HasFile (D.told desk.old).folder claims.old.file.now }
    ensures found { IfOk result (λ fault. (file : List ℕ) (most : ℕ) (said : List Statement)
        → HasSaid (D.told desk.old).folder file most said claims.old
        → IsFoundAhead (D.told desk.old).folder file most said
        (record { number = number.now; kind = kind; rule = G.rule goal.now }) claims.new fault) }
    ensures same { claims.new.file.now ≡ claims.old.file.now }
    ensures halted { IfErr result (λ halt. (file : List ℕ) (most : ℕ) (said : List Statement)
        → HasSaid (D.told desk.old).folder file most said claims.old
        → AreBytes (D.told desk.old).folder file most (Err halt)) }
    ensures reads { OnlyReads (halt_stop result) (D.told desk.old) (D.told desk.new) }
{
    match claims.check_next(alloc, desk, goal)? {
        Some(said) => Ok(fault_of_said(number, kind, goal, &said)),
        None => Ok(Some(Fault::Missing)),
    }
}

/// Checks the next claim of a file, of which `count` claims were found right: the answer is what is
/// wrong with it, as [`check_flight_ahead`] has it.
pub fn check_ahead<D: Desk, G: Goal>(
    alloc: Global,
    desk: &mut D,
    number: &Name,
    kind: ClaimKind,
    goal: &G,
    claims: &mut ClaimsFile<'_>,
    count: usize,
) -> Result<Option<NotProved>, Halt>
    requires { HasFile (D.told desk.old).folder claims.old.file.now }
    ensures goes_on { IfOk result (GoesOnAhead (D.told desk.old).folder count
        ((record { number = number.now; kind = kind; rule = G.rule goal.now }) ∷ []) claims.old
        claims.new) }
    ensures same { claims.new.file.now ≡ claims.old.file.now }
    ensures halted { IfErr result (HaltsAhead (D.told desk.old).folder claims.old) }
    ensures reads { OnlyReads (halt_stop result) (D.told desk.old) (D.told desk.new) }
{
    match fault_ahead(alloc, desk, number, kind, goal, claims)? {
        Some(fault) => Ok(Some(NotProved {
            claim: count.saturating_add(1),
            fault,
        })),
        None => Ok(None),
    }
}

/// Checks the claims of one entrant's flight as they come in a file: `goals` are those that are
/// expected, and `count` is how many claims of the file were found right. The answer is the first
/// claim that is wrong; where there is none, so many more are right. A claim is wrong where the
/// proof has none there, where it has another number or kind, or else by what the checker says of
/// it.
pub fn check_flight_ahead<D: Desk>(
    alloc: Global,
    desk: &mut D,
    number: &Name,
    goals: &[(ClaimKind, AnyGoal)],
    claims: &mut ClaimsFile<'_>,
    count: usize,
) -> Result<Option<NotProved>, Halt>
    requires { HasFile (D.told desk.old).folder claims.old.file.now }
    ensures goes_on { IfOk result (GoesOnAhead (D.told desk.old).folder count
        (expected_of number.now (rules_of_claims goals.now)) claims.old claims.new) }
    ensures same { claims.new.file.now ≡ claims.old.file.now }
    ensures halted { IfErr result (HaltsAhead (D.told desk.old).folder claims.old) }
    ensures reads { OnlyReads (halt_stop result) (D.told desk.old) (D.told desk.new) }
{
    let mut at = count;
    for goal in goals {
        if let Some(fault) = fault_ahead(alloc, desk, number, goal.0, &goal.1, claims)? {
            return Ok(Some(NotProved {
                claim: at.saturating_add(1),
                fault,
            }));
        }
        at = at.saturating_add(1);
    }
    Ok(None)
}

/// What is said of a file's claims where `count` of them were found right and no other is expected.
pub fn check_left(claims: &ClaimsFile<'_>, count: usize) -> Checked
    ensures { EndsAhead count claims.now result }
{
    if claims.has_claim() {
        return Checked::Refused(NotProved {
            claim: count.saturating_add(1),
            fault: Fault::Surplus,
        });
    }
    Checked::Accepted { claims: count }
}
