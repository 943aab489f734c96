ghost use Rattle.std.specs.declared.alloc.Global.{Global};
ghost use Rattle.std.specs.Prelude.{◌≡◌, ◌≤◌, ℕ, List, [], ◌∷◌, ◌++◌, length, map, Err, IfErr, IfOk, IfSome, IsNone, MatchOption, MatchResult, OnOk, Option, Some, Vec};
ghost use Rattle.gl_answer.specs.FileLines.{left_of};
ghost use Rattle.gl_answer.specs.Halts.{AreBytes, halt_stop};
ghost use Rattle.gl_box.specs.Closed.{box_of};
ghost use Rattle.gl_box.specs.declared.closed.Why.{Why};
ghost use Rattle.gl_check.specs.File.{BrokeOff, CameSoFar, GaveAll, GaveLines, IsClaimSaid, NoneAhead, UsedLines};
ghost use Rattle.gl_check.specs.Testing.{HasTaken};
ghost use Rattle.gl_check.specs.Verdict.{IsVerdict};
ghost use Rattle.gl_desk.specs.Answers.{OnlyReads};
ghost use Rattle.gl_desk.specs.Desk.{FilesByName, HasFile};
ghost use Rattle.gl_proof.specs.Claim.{Statement, box_line, fix_lines};
ghost use Rattle.gl_proof.specs.Line.{Line, ClaimLine};
ghost use Rattle.gl_proof.specs.declared.claim.ClaimKind.{ClaimKind};

use crate::boxes::{GoalTest, begin_check};
use crate::choice::fault_of_choice;
use crate::file_said::{ClaimFront, ClaimSaid};
use crate::verdict::Verdict;
use gl_answer::{FileLines, Halt, next_box_read, next_file_line};
use gl_box::{BoxCheck, Cell, Closed, Tuple};
use gl_desk::{Desk, Name};
use gl_goal::{Goal, Leg};
use gl_proof::{ProofLine, ProofPlace};
use std::alloc::{AllocError, Global};

/// The box of a line, if there is a line and it is that of a box.
fn box_of_line(line: &Option<ProofLine>) -> Option<Closed>
    ensures { MatchOption result ((closed : Closed) → line.now ≡ Some (ProofLine.Box closed) → ⊥)
        (λ closed. line.now ≡ Some (ProofLine.Box closed)) }
{
    match line {
        Some(ProofLine::Box(closed)) => Some(*closed),
        _ => None,
    }
}

/// Takes the boxes whose lines come next of what was read. The only error is want of memory.
fn take_read<G: Goal>(
    lines: &mut FileLines<ProofPlace>,
    check: &mut BoxCheck<GoalTest<'_, G>, Vec<Leg>>,
) -> Result<(), AllocError>
    requires { (before : List (List (ℕ × ℕ) × Why)) × HasTaken G.rule G.are_legs before check.old }
    ensures taken { OnOk result ((folder : Option FilesByName) (file : List ℕ) (most : ℕ)
        (used : List Line) (before : List (List (ℕ × ℕ) × Why))
        → GaveLines folder file most used lines.old
        → HasTaken G.rule G.are_legs before check.old
        → (boxes : List (List (ℕ × ℕ) × Why))
        × HasTaken G.rule G.are_legs (before ++ boxes) check.new
        × GaveLines folder file most (used ++ map box_line boxes) lines.new) }
    ensures takes { OnOk result ((before : List (List (ℕ × ℕ) × Why))
        × HasTaken G.rule G.are_legs before check.new) }
    ensures test { OnOk result (check.new.test ≡ check.old.test) }
    ensures shorter { OnOk result ((most : ℕ) → left_of most lines.new ≤ left_of most lines.old) }
{
    let mut cell = Cell::point(&Tuple::first(1));
    'boxes: while let Some(why) = next_box_read(lines, &mut cell) {
        check.take(&cell, why)?;
    }
    Ok(())
}

/// Takes the boxes whose lines come next, and answers with the line after them, if one came.
fn take_boxes<D: Desk, G: Goal>(
    alloc: Global,
    desk: &mut D,
    file: &Name,
    most: u64,
    lines: &mut FileLines<ProofPlace>,
    check: &mut BoxCheck<GoalTest<'_, G>, Vec<Leg>>,
) -> Result<Option<ProofLine>, Halt>
    requires listed { HasFile (D.told desk.old).folder file.now }
    requires checks { (before : List (List (ℕ × ℕ) × Why))
        × HasTaken G.rule G.are_legs before check.old }
    ensures taken { IfOk result (λ ahead. (used : List Line) (before : List (List (ℕ × ℕ) × Why))
        → GaveLines (D.told desk.old).folder file.now most used lines.old
        → HasTaken G.rule G.are_legs before check.old
        → (boxes : List (List (ℕ × ℕ) × Why))
        × HasTaken G.rule G.are_legs (before ++ boxes) check.new
        × UsedLines (D.told desk.old).folder file.now most (used ++ map box_line boxes) ahead lines.new) }
    ensures same { OnOk result ((check.new.test.goal.now ≡ check.old.test.goal.now)
        × (check.new.test.total ≡ check.old.test.total)) }
    ensures halted { IfErr result (λ halt. (used : List Line)
        → GaveLines (D.told desk.old).folder file.now most used lines.old
        → AreBytes (D.told desk.old).folder file.now most (Err halt)) }
    ensures reads { OnlyReads (halt_stop result) (D.told desk.old) (D.told desk.new) }
{
    'boxes: loop {
        take_read(lines, check)?;
        let ahead = next_file_line::<D, ProofLine>(alloc, desk, file, most, lines)?;
        let Some(closed) = box_of_line(&ahead) else {
            return Ok(ahead);
        };
        check.take(&closed.cell, closed.why)?;
    }
}

/// What is said of a claim whose boxes come next, and the line after them, if one came.
fn verdict_next<D: Desk, G: Goal>(
    alloc: Global,
    desk: &mut D,
    file: &Name,
    most: u64,
    lines: &mut FileLines<ProofPlace>,
    goal: &G,
    total: Option<u64>,
    fixes: &[u32],
) -> Result<(Verdict, Option<ProofLine>), Halt>
    requires listed { HasFile (D.told desk.old).folder file.now }
    requires named { IsNone total → length fixes.now ≡ 0 }
    ensures said { IfOk result (λ next. (used : List Line)
        → GaveLines (D.told desk.old).folder file.now most used lines.old
        → (boxes : List (List (ℕ × ℕ) × Why))
        × IsVerdict (G.rule goal.now) total fixes.now boxes next.0
        × UsedLines (D.told desk.old).folder file.now most (used ++ map box_line boxes) next.1 lines.new) }
    ensures halted { IfErr result (λ halt. (used : List Line)
        → GaveLines (D.told desk.old).folder file.now most used lines.old
        → AreBytes (D.told desk.old).folder file.now most (Err halt)) }
    ensures reads { OnlyReads (halt_stop result) (D.told desk.old) (D.told desk.new) }
{
    let mut check = begin_check(alloc, goal, total)?;
    let ahead = take_boxes(alloc, desk, file, most, lines, &mut check)?;
    if let Some(verdict) = fault_of_choice(goal, total, fixes) {
        return Ok((verdict, ahead));
    }
    Ok((Verdict::from(check.said()), ahead))
}

/// The fixes of a line, if there is a line and it is that of fixes.
fn fixes_of_line(line: Option<ProofLine>) -> Option<Vec<u32>>
    ensures { MatchOption result ((fixes : Vec ℕ Global) → line ≡ Some (ProofLine.Fixes fixes) → ⊥)
        (λ fixes. line ≡ Some (ProofLine.Fixes fixes)) }
{
    match line {
        Some(ProofLine::Fixes(fixes)) => Some(fixes),
        _ => None,
    }
}

/// The fixes of a claim whose line came last: those of the next line where there is a total, and
/// else none; `None` where the text breaks off before them.
fn fixes_next<D: Desk>(
    alloc: Global,
    desk: &mut D,
    file: &Name,
    most: u64,
    lines: &mut FileLines<ProofPlace>,
    total: Option<u64>,
) -> Result<Option<Vec<u32>>, Halt>
    requires { HasFile (D.told desk.old).folder file.now }
    ensures fixes { IfOk result (λ next. (used : List Line) (number : List ℕ) (kind : ClaimKind)
        → GaveLines (D.told desk.old).folder file.now most
        (used ++ ClaimLine number kind total ∷ []) lines.old
        → MatchOption next (BrokeOff (D.told desk.old).folder file.now most lines.new)
        (λ fixes. GaveLines (D.told desk.old).folder file.now most
        ((used ++ ClaimLine number kind total ∷ []) ++ fix_lines total fixes.items) lines.new)) }
    ensures named { IfOk result (λ next. IfSome next (λ fixes. IsNone total → fixes.items ≡ [])) }
    ensures halted { IfErr result (λ halt. (used : List Line)
        → GaveLines (D.told desk.old).folder file.now most used lines.old
        → AreBytes (D.told desk.old).folder file.now most (Err halt)) }
    ensures reads { OnlyReads (halt_stop result) (D.told desk.old) (D.told desk.new) }
{
    let Some(_total) = total else {
        return Ok(Some(Vec::new(alloc)));
    };
    let line = next_file_line::<D, ProofLine>(alloc, desk, file, most, lines)?;
    Ok(fixes_of_line(line))
}

/// The line of a claim, where such a line is ahead, and else what is ahead.
fn front_of(ahead: Option<ProofLine>) -> Result<ClaimFront, Option<ProofLine>>
    ensures { MatchResult result
        (λ front. ahead ≡ Some (ProofLine.Claim front.number front.kind front.total))
        (λ other. (other ≡ ahead) × NoneAhead ahead) }
{
    match ahead {
        Some(
            ProofLine::Claim {
                number,
                kind,
                total,
            },
        ) => Ok(ClaimFront {
            number,
            kind,
            total,
        }),
        other => Err(other),
    }
}

/// What is said of the next claim, if one comes, where this line is ahead, and what is ahead after
/// it.
pub(crate) fn claim_next<D: Desk, G: Goal>(
    alloc: Global,
    desk: &mut D,
    file: &Name,
    most: u64,
    lines: &mut FileLines<ProofPlace>,
    ahead: Option<ProofLine>,
    goal: &G,
) -> Result<(Option<ClaimSaid>, Option<ProofLine>), Halt>
    requires { HasFile (D.told desk.old).folder file.now }
    ensures next { IfOk result (λ next. (said : List Statement)
        → CameSoFar (D.told desk.old).folder file.now most said ahead lines.old
        → MatchOption next.0 (NoneAhead next.1
        × CameSoFar (D.told desk.old).folder file.now most said next.1 lines.new)
        (λ claim. (statement : Statement) × IsClaimSaid (G.rule goal.now) statement claim
        × CameSoFar (D.told desk.old).folder file.now most (said ++ statement ∷ []) next.1
        lines.new)) }
    ensures halted { IfErr result (λ halt. (said : List Statement)
        → CameSoFar (D.told desk.old).folder file.now most said ahead lines.old
        → AreBytes (D.told desk.old).folder file.now most (Err halt)) }
    ensures reads { OnlyReads (halt_stop result) (D.told desk.old) (D.told desk.new) }
{
    let front = match front_of(ahead) {
        Ok(front) => front,
        Err(other) => return Ok((None, other)),
    };
    let Some(fixes) = fixes_next(alloc, desk, file, most, lines, front.total)? else {
        return Ok((None, None));
    };
    let (verdict, ahead) = verdict_next(alloc, desk, file, most, lines, goal, front.total, &fixes)?;
    let said = ClaimSaid {
        number: front.number,
        kind: front.kind,
        verdict,
    };
    Ok((Some(said), ahead))
}
