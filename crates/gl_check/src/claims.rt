ghost use Rattle.std.specs.Prelude.{◌≡◌, ℕ, List, [], ◌∷◌, ◌++◌, length, Err, IfErr, IfOk, MatchBool, MatchOption, MatchResult, Option, Some, None};
ghost use Rattle.gl_answer.specs.FileTests.{ProofText};
ghost use Rattle.gl_answer.specs.Halts.{AreBytes, IsNoFault, halt_stop};
ghost use Rattle.gl_answer.specs.ReadFiles.{HasReadFile};
ghost use Rattle.gl_check.specs.File.{CameSoFar, GaveAll, GaveLines, HasClaimNext, HasSaid, IsClaimSaid, IsTextBehind, IsWholeFile, NoClaimNext};
ghost use Rattle.gl_desk.specs.Answers.{OnlyReads};
ghost use Rattle.gl_desk.specs.Desk.{FilesByName, HasFile};
ghost use Rattle.gl_proof.specs.Claim.{Statement};
ghost use Rattle.gl_proof.specs.Line.{Line};
ghost use Rattle.gl_proof.specs.LineReading.{IsExhausted};
ghost use Rattle.gl_proof.specs.ProofLines.{is_ended, line_said};

use crate::claims_file::ClaimsFile;
use crate::file::claim_next;
use crate::file_said::ClaimSaid;
use gl_answer::{
    FileLines, Halt, end_file_lines, next_file_line, open_lines, proof_cause, refusing_for,
};
use gl_desk::{Desk, Name};
use gl_goal::Goal;
use gl_proof::{ProofLine, ProofPlace};
use std::alloc::Global;

/// Reads the heading of a proof, and answers with the line after it, if one came.
fn read_heading<D: Desk>(
    alloc: Global,
    desk: &mut D,
    file: &Name,
    most: u64,
    lines: &mut FileLines<ProofPlace>,
) -> Result<Option<ProofLine>, Halt>
    requires { HasFile (D.told desk.old).folder file.now }
    ensures came { IfOk result (λ ahead. GaveLines (D.told desk.old).folder file.now most [] lines.old
        → CameSoFar (D.told desk.old).folder file.now most [] ahead lines.new) }
    ensures halted { IfErr result (λ halt.
        GaveLines (D.told desk.old).folder file.now most [] lines.old
        → AreBytes (D.told desk.old).folder file.now most (Err halt)) }
    ensures reads { OnlyReads (halt_stop result) (D.told desk.old) (D.told desk.new) }
{
    let heading = next_file_line::<D, ProofLine>(alloc, desk, file, most, lines)?;
    let Some(_heading) = heading else {
        return Ok(None);
    };
    next_file_line::<D, ProofLine>(alloc, desk, file, most, lines)
}

/// Reads all lines that are left.
fn read_rest<D: Desk>(
    alloc: Global,
    desk: &mut D,
    file: &Name,
    most: u64,
    lines: &mut FileLines<ProofPlace>,
) -> Result<(), Halt>
    requires { HasFile (D.told desk.old).folder file.now }
    ensures all { IfOk result (λ _. (used : List Line)
        → GaveLines (D.told desk.old).folder file.now most used lines.old
        → (more : List Line)
        × GaveAll (D.told desk.old).folder file.now most (used ++ more) lines.new) }
    ensures halted { IfErr result (λ halt. (used : List Line)
        → GaveLines (D.told desk.old).folder file.now most used lines.old
        → AreBytes (D.told desk.old).folder file.now most (Err halt)) }
    ensures reads { OnlyReads (halt_stop result) (D.told desk.old) (D.told desk.new) }
{
    'lines: loop {
        let line = next_file_line::<D, ProofLine>(alloc, desk, file, most, lines)?;
        let Some(_line) = line else {
            return Ok(());
        };
    }
}

/// Reads all lines that are left where a line is ahead. Where none is, none is left.
fn read_to_end<D: Desk>(
    alloc: Global,
    desk: &mut D,
    file: &Name,
    most: u64,
    lines: &mut FileLines<ProofPlace>,
    ahead: &Option<ProofLine>,
) -> Result<(), Halt>
    requires { HasFile (D.told desk.old).folder file.now }
    ensures all { IfOk result (λ _. MatchOption ahead.now (lines.new ≡ lines.old) (λ line.
        (used : List Line) → GaveLines (D.told desk.old).folder file.now most used lines.old
        → (more : List Line)
        × GaveAll (D.told desk.old).folder file.now most (used ++ more) lines.new)) }
    ensures halted { IfErr result (λ halt. MatchOption ahead.now ⊥ (λ line. (used : List Line)
        → GaveLines (D.told desk.old).folder file.now most used lines.old
        → AreBytes (D.told desk.old).folder file.now most (Err halt))) }
    ensures reads { OnlyReads (halt_stop result) (D.told desk.old) (D.told desk.new) }
{
    if ahead.is_none() {
        return Ok(());
    }
    read_rest(alloc, desk, file, most, lines)
}

/// Tests that the text of a file that is read to its end is that of a proof.
fn test_whole(file: &Name, lines: &FileLines<ProofPlace>) -> Result<(), Halt>
    requires { IsExhausted is_ended lines.now.reader }
    ensures whole { (folder : Option FilesByName) (most : ℕ) (given : List Line)
        → GaveAll folder file.now most given lines.now
        → IsWholeFile folder file.now most given result }
    ensures no_fault { IsNoFault result }
{
    match end_file_lines::<ProofLine>(lines) {
        Ok(()) => Ok(()),
        Err(error) => Err(refusing_for(file, proof_cause(error))),
    }
}

impl<'a> ClaimsFile<'a> {
    /// A proof's file that the folder lists, of which the heading is read. It is refused where it
    /// has more than `most` bytes.
    pub fn open<D: Desk>(
        alloc: Global,
        desk: &mut D,
        file: &'a Name,
        most: u64,
    ) -> Result<ClaimsFile<'a>, Halt>
        requires { HasFile (D.told desk.old).folder file.now }
        ensures opens { IfOk result (HasSaid (D.told desk.old).folder file.now most []) }
        ensures halted { IfErr result (λ halt.
            AreBytes (D.told desk.old).folder file.now most (Err halt)) }
        ensures reads { OnlyReads (halt_stop result) (D.told desk.old) (D.told desk.new) }
    {
        let mut lines = open_lines::<ProofLine>(alloc)?;
        let ahead = read_heading(alloc, desk, file, most, &mut lines)?;
        Ok(ClaimsFile {
            file,
            most,
            lines,
            ahead,
        })
    }

    /// Whether a claim comes next.
    pub fn has_claim(&self) -> bool
        ensures { MatchBool result (HasClaimNext self.now) (NoClaimNext self.now) }
    {
        matches!(self.ahead, Some(ProofLine::Claim { .. }))
    }

    /// Checks the next claim against a goal, if one comes.
    pub fn check_next<D: Desk, G: Goal>(
        &mut self,
        alloc: Global,
        desk: &mut D,
        goal: &G,
    ) -> Result<Option<ClaimSaid>, Halt>
        requires { HasFile (D.told desk.old).folder self.old.file.now }
        ensures next { IfOk result (λ next. (file : List ℕ) (most : ℕ) (said : List Statement)
            → HasSaid (D.told desk.old).folder file most said self.old
            → MatchOption next
            (NoClaimNext self.new × HasSaid (D.told desk.old).folder file most said self.new)
            (λ claim. (statement : Statement) × IsClaimSaid (G.rule goal.now) statement claim
            × HasSaid (D.told desk.old).folder file most (said ++ statement ∷ []) self.new)) }
        ensures same { self.new.file.now ≡ self.old.file.now }
        ensures halted { IfErr result (λ halt. (file : List ℕ) (most : ℕ) (said : List Statement)
            → HasSaid (D.told desk.old).folder file most said self.old
            → AreBytes (D.told desk.old).folder file most (Err halt)) }
        ensures reads { OnlyReads (halt_stop result) (D.told desk.old) (D.told desk.new) }
    {
        let ahead = self.ahead.take();
        let (said, ahead) = claim_next(
            alloc,
            desk,
            self.file,
            self.most,
            &mut self.lines,
            ahead,
            goal,
        )?;
        self.ahead = ahead;
        Ok(said)
    }

    /// Reads the text to its end, and refuses the file where it isn't that of a proof.
    pub fn end<D: Desk>(&mut self, alloc: Global, desk: &mut D) -> Result<(), Halt>
        requires listed { HasFile (D.told desk.old).folder self.old.file.now }
        requires came { (file : List ℕ) × (most : ℕ) × (said : List Statement)
            × HasSaid (D.told desk.old).folder file most said self.old }
        ensures ended { (file : List ℕ) (most : ℕ) (said : List Statement)
            → HasSaid (D.told desk.old).folder file most said self.old
            → HasReadFile ProofText most (D.told desk.old).folder file
            (λ text _. IsTextBehind said self.old text) result }
        ensures reads { OnlyReads (halt_stop result) (D.told desk.old) (D.told desk.new) }
    {
        read_to_end(
            alloc,
            desk,
            self.file,
            self.most,
            &mut self.lines,
            &self.ahead,
        )?;
        test_whole(self.file, &self.lines)
    }
}
