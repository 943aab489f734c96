ghost use Rattle.std.specs.Prelude.{◌≡◌, ℕ, List, Option};
ghost use Rattle.gl_answer.specs.FileTests.{most_proof_bytes};
ghost use Rattle.gl_answer.specs.Halts.{IsNoFault, halt_stop};
ghost use Rattle.gl_answer.specs.ReadFiles.{HasRead, HasReadFile};
ghost use Rattle.gl_desk.specs.Answers.{OnlyReads};
ghost use Rattle.gl_desk.specs.Desk.{FilesByName, HasFile};
ghost use Rattle.gl_flights.specs.NearFiles.{NearProofText, near_proof_cause};
ghost use Rattle.gl_near.specs.Line.{Line};
ghost use Rattle.gl_near.specs.LineCheck.{HasTakenLines};
ghost use Rattle.gl_near.specs.NearLines.{is_ended, near_rules};
ghost use Rattle.gl_near.specs.Pairing.{Pairing};
ghost use Rattle.gl_near.specs.Pairs.{pairing_of};
ghost use Rattle.gl_near.specs.Verdict.{IsTextChecked};
ghost use Rattle.gl_proof.specs.LineReading.{IsExhausted};
ghost use Rattle.gl_flights.specs.Code.NearFiles.{GaveAll};

use gl_answer::{
    Cause, FileLines, Halt, MOST_PROOF_BYTES, end_file_lines, next_file_line, open_lines,
    refusing_for,
};
use gl_desk::{Desk, Name};
use gl_near::{NearCheck, NearError, NearLine, NearPlace, NearVerdict, Pairs};
use std::alloc::Global;

/// Why a text is no proof of a closest approach; `None` for want of memory.
fn near_proof_cause(error: NearError) -> Option<Cause>
    ensures { result ≡ near_proof_cause error }
{
    match error {
        NearError::Heading => Some(Cause::NoNearHeading),
        NearError::Line(line) => Some(Cause::WrongNearProof(line)),
        NearError::Cut => Some(Cause::NearProofCut),
        NearError::Memory => None,
    }
}

/// What is to be said of the proof of a file that is read to its end, or that it is none.
fn end_check(
    file: &Name,
    lines: &FileLines<NearPlace>,
    check: &NearCheck<'_>,
) -> Result<NearVerdict, Halt>
    requires { IsExhausted is_ended lines.now.reader }
    ensures checked { (folder : Option FilesByName) (pairing : Pairing) (given : List Line)
        → GaveAll folder file.now given lines.now → HasTakenLines pairing given check.now
        → HasReadFile NearProofText most_proof_bytes folder file.now (IsTextChecked pairing)
        result }
    ensures no_fault { IsNoFault result }
{
    match end_file_lines::<NearLine>(lines) {
        Ok(()) => Ok(check.verdict()),
        Err(error) => Err(refusing_for(file, near_proof_cause(error))),
    }
}

/// What is to be said of the proof of a listed file by some pairs. Its boxes are tested as their
/// lines come: no more than two pieces of the file, a line and the open cells are kept.
pub(crate) fn check_near_file<D: Desk>(
    alloc: Global,
    desk: &mut D,
    file: &Name,
    pairs: &Pairs,
) -> Result<NearVerdict, Halt>
    requires { HasFile (D.told desk.old).folder file.now }
    ensures checked { HasReadFile NearProofText most_proof_bytes (D.told desk.old).folder file.now
        (IsTextChecked (pairing_of pairs.now)) result }
    ensures reads { OnlyReads (halt_stop result) (D.told desk.old) (D.told desk.new) }
{
    let mut lines = open_lines::<NearLine>(alloc)?;
    let mut check = NearCheck::new(alloc, pairs)?;
    'lines: loop {
        let line = next_file_line::<D, NearLine>(alloc, desk, file, MOST_PROOF_BYTES, &mut lines)?;
        let Some(line) = line else {
            return end_check(file, &lines, &check);
        };
        check.take(alloc, line)?;
    }
}
