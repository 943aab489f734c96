ghost use Rattle.std.specs.Prelude.{◌≡◌, ◌∷◌, ◌++◌, ℕ, List, [], IfOk, OnOk};
ghost use Rattle.gl_proof.specs.LineReading.{IsWhole};
ghost use Rattle.gl_near.specs.Line.{Line};
ghost use Rattle.gl_near.specs.LineCheck.{HasTakenLines, best_with};
ghost use Rattle.gl_near.specs.NearLines.{line_said, near_rules};
ghost use Rattle.gl_near.specs.Pairing.{Pairing};
ghost use Rattle.gl_near.specs.Pairs.{pairing_of};
ghost use Rattle.gl_near.specs.Verdict.{IsTextChecked};

use crate::answer::NearVerdict;
use crate::boxes::{PairTest, begin_near_check};
use crate::check::fault_of;
use crate::found::NearBest;
use crate::near_line::NearLine;
use crate::pairs::Pairs;
use gl_box::BoxCheck;
use std::alloc::{AllocError, Global};

/// A check of the text of a proof whose lines come one by one. It keeps the cells that are still
/// open, and nothing of a box that was passed.
#[derive(Drop)]
pub struct NearCheck<'a> {
    pub(crate) total: Option<u64>,
    pub(crate) boxes: BoxCheck<PairTest<'a>, ()>,
}

/// A pair that has the least distance, where there is one.
pub(crate) fn best_with(total: Option<u64>, first: u32, second: u32) -> Option<NearBest>
    ensures { result ≡ best_with total first second }
{
    let total = total?;
    Some(NearBest {
        total,
        first,
        second,
    })
}

impl<'a> NearCheck<'a> {
    /// A check by some pairs that has seen no line yet. The only error is want of memory.
    pub fn new(alloc: Global, pairs: &'a Pairs) -> Result<NearCheck<'a>, AllocError>
        ensures { IfOk result (HasTakenLines (pairing_of pairs.now) []) }
    {
        let boxes = begin_near_check(alloc, pairs, None)?;
        Ok(NearCheck { total: None, boxes })
    }

    /// Takes the next line of the text, and tests it where it is that of a box. The only error is
    /// want of memory.
    pub fn take(&mut self, alloc: Global, line: NearLine) -> Result<(), AllocError>
        requires { (pairing : Pairing) × (lines : List Line)
            × HasTakenLines pairing lines self.old }
        ensures { OnOk result ((pairing : Pairing) (lines : List Line)
            → HasTakenLines pairing lines self.old
            → HasTakenLines pairing (lines ++ line_said line ∷ []) self.new) }
    {
        match line {
            NearLine::Heading | NearLine::End => (),
            NearLine::Least(total) => self.total = total,
            NearLine::Pair(first, second) => {
                let best = best_with(self.total, first, second);
                self.boxes = begin_near_check(alloc, self.boxes.test.pairs, best)?;
            }
            NearLine::Box(closed) => self.boxes.take(&closed.cell, closed.why)?,
        }
        Ok(())
    }

    /// What is to be said of the proof whose lines came, where they are all lines of a whole text.
    pub fn verdict(&self) -> NearVerdict
        ensures { (pairing : Pairing) (lines : List Line) (text : List ℕ)
            → HasTakenLines pairing lines self.now → IsWhole near_rules text lines
            → IsTextChecked pairing text result }
    {
        if let Some(verdict) = fault_of(self.boxes.test.pairs, self.boxes.test.best) {
            return verdict;
        }
        NearVerdict::from(self.boxes.said())
    }
}
